// The links of a pattern, section by section.
ghost use Rattle.std.specs.Prelude.{◌≡◌, length, nat_lt};
ghost use Rattle.std.specs.Iterator.{YieldsFirst, item_count};
ghost use Rattle.patterns.specs.Links.{ahead, links_left, links_of, opens, Stepped};

use crate::cursor::{Cursor, Span};
use deposit::carrier::Carrier;
use deposit::rows::LinkRow;
use refusals::Kind;

/// Whether a span of a list with so many rows has a row to come.
pub fn is_open(span: Span, count: usize) -> bool
    ensures value { result ≡ opens span count }
{
    span.left > 0 && span.at < count
}

/// A cursor before the first link of a pattern.
pub fn along<C: Carrier>(c: &C, pattern: usize) -> Cursor
    ensures rows { ahead (C.meaning c.now) result ≡ links_of (C.meaning c.now) pattern }
{
    let row = c.pattern(pattern);
    Cursor {
        links: Span::default(),
        uses: Span {
            at: usize::from(row.first_use),
            left: usize::from(row.uses),
        },
    }
}

/// The next link, which the cursor then lies behind; nothing when there is none.
pub fn next_link<C: Carrier>(c: &C, cursor: &mut Cursor) -> Option<LinkRow>
    ensures rows { Stepped (ahead (C.meaning c.now) cursor.old) result (ahead (C.meaning c.now) cursor.new) }
{
    // once more for each section that is begun; no number of turns is known before
    loop {
        if let Some(link) = cursor.links.next(c.count(Kind::Link)) {
            return Some(c.link(link));
        }
        let row = cursor.uses.next(c.count(Kind::Use))?;
        let section = c.section(usize::from(c.use_of_section(row).section));
        cursor.links = Span {
            at: usize::from(section.first_link),
            left: usize::from(section.links),
        };
    }
}

/// The links yet to come, as an iterator.
#[derive(Drop)]
pub struct Links<'c, C> {
    pub carrier: &'c C,
    pub cursor: Cursor,
}

impl<'c, C: Carrier> Links<'c, C> {
    /// The links of a pattern, in order.
    pub fn of(carrier: &'c C, pattern: usize) -> Links<'c, C>
        ensures rows { links_left C.meaning result ≡ links_of (C.meaning carrier.now) pattern }
    {
        Links {
            carrier,
            cursor: along(carrier, pattern),
        }
    }
}

impl<C: Carrier> Iterator for Links<'_, C> {
    type Item = LinkRow;

    ghost next_gives = { YieldsFirst (links_left C.meaning) };

    ghost remaining = { item_count (links_left C.meaning) };

    fn next(&mut self) -> Option<LinkRow> {
        next_link(self.carrier, &mut self.cursor)
    }
}

/// Whether a pattern has a link at a position, counted from 0: at most `position + 1` links are looked at.
pub fn has_links_past<C: Carrier>(c: &C, pattern: usize, position: usize) -> bool
    ensures value { result ≡ nat_lt position (length (links_of (C.meaning c.now) pattern)) }
{
    Links::of(c, pattern).nth(position).is_some()
}

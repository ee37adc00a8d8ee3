// The listed book: entries in the order of their days, of which the first of a day decides.
ghost use Rattle.std.specs.Prelude.{◌≡◌, ℕ, true, [], ◌∷◌, ◌≤◌, length, take, unwrap_or, OnOk};
ghost use Rattle.std.specs.List.Sorted.{IsPermutation};
ghost use Rattle.ranked.specs.Placing.{in_order};
ghost use Rattle.day_books.specs.Entries.{dated, no_later, first_kind, kind_after};

use crate::dated::DatedKind;
use calendar::books::{DayBook, HolidayKind};
use calendar::dates::LAST_DAY;
use ranked::insert;
use refusals::Refusal;

/// A book of listed days over a list that its owner lends: its first `count` rows are the entries, in the order of their days.
// A list with a count beside it and no `Vec`: lists are lent, since the calls of the archive allocate nothing.
#[derive(Drop)]
pub struct ListedBook<'a> {
    entries: &'a mut [DatedKind],
    count: usize,
    ghost within: { count ≤ length entries.now },
    ghost ordered: { in_order no_later (take count entries.now) ≡ true },
}

impl<'a> ListedBook<'a> {
    ghost use Rattle.day_books.specs.Books.{listed, book_kind, Added};

    /// An empty book over a list, whatever the list holds.
    pub fn over(entries: &'a mut [DatedKind]) -> ListedBook<'a>
        ensures value { listed result ≡ [] }
        ensures counted { result.count ≡ 0 }
        ensures rows { result.entries.now ≡ entries.old }
        ensures same { result.entries.ghost_name ≡ entries.entry.ghost_name }
    {
        ListedBook { entries, count: 0 }
    }

    /// Lists a day with a kind, behind the entries of that day and before those of later days. A full list refuses with 44.
    pub fn add(&mut self, day: u32, kind: u8) -> Result<(), Refusal>
        ensures answer { Added (dated day kind) self.old self.new result }
        ensures order { in_order no_later (listed self.new) ≡ true }
        ensures holds { OnOk result (IsPermutation (dated day kind ∷ listed self.old) (listed self.new)) }
        ensures after { OnOk result ((d : ℕ) → book_kind self.new d ≡ kind_after (dated day kind) (listed self.old) d) }
        ensures same { self.new.entries.ghost_name ≡ self.old.entries.ghost_name }
    {
        self.count = insert(self.entries, self.count, DatedKind { day, kind })?;
        Ok(())
    }

    fn listed_entries(&self) -> &[DatedKind]
        ensures { result.now ≡ listed self.now }
    {
        &self.entries[..self.count]
    }
}

// The number that the first entry of a day has.
fn first_kind(entries: &[DatedKind], day: u32) -> Option<u8>
    ensures { unwrap_or result 0 ≡ first_kind entries.now day }
{
    // tried `find` and `map`: 1.8 times the time of this loop
    for entry in entries {
        if entry.day == day {
            return Some(entry.kind);
        }
    }
    None
}

/// The first entry of a day decides, also one whose number is no kind; past the calendar no day is a holiday.
impl<'a> DayBook for ListedBook<'a> {
    ghost use Rattle.day_books.specs.Books.{book_kind, book_few, book_ends};

    ghost kind_of = { book_kind };

    ghost few = { book_few };

    ghost ends = { book_ends };

    fn kind(&self, day: u32) -> Option<HolidayKind> {
        if day > LAST_DAY {
            return None;
        }
        let kind = first_kind(self.listed_entries(), day)?;
        HolidayKind::try_from(kind).ok()
    }
}

// Rule 18: the links of a pattern.
ghost use Rattle.std.specs.Prelude.{◌≡◌};
ghost use Rattle.rules.specs.Tests.{meets, may_follow, joining_kept};

use deposit::carrier::Carrier;
use deposit::rows::LinkRow;
use patterns::links::Links;

// The most links of a pattern.
const MOST_LINKS: usize = 200;

fn is_met(link: LinkRow, next: LinkRow) -> bool
    ensures { result ≡ meets link next }
{
    link.to == next.from && link.to_activity == next.from_activity
}

// Whether one more link may come, of so many left, behind the one before.
fn may_follow(left: usize, before: Option<LinkRow>, next: LinkRow) -> bool
    ensures { result ≡ may_follow left before next }
{
    left > 0 && before.is_none_or(|link| is_met(link, next))
}

pub(crate) fn joining_kept<C: Carrier>(c: &C, row: usize) -> bool
    ensures { result ≡ joining_kept (C.Carrier.meaning c.now) row }
{
    let mut before = None;
    let mut left = MOST_LINKS;
    // one walk, which ends at the first link that may not come: links are as many as a pattern likes
    for link in Links::of(c, row) {
        if !may_follow(left, before, link) {
            return false;
        }
        before = Some(link);
        left -= 1;
    }
    true
}

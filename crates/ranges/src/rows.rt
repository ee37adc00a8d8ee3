// A row of a deposit, by its kind and number.
ghost use Rattle.std.specs.Prelude.{◌≡◌, Decides};
ghost use Rattle.ranges.specs.Values.{in_range};
ghost use Rattle.ranges.specs.Words.{InRange};

use crate::judged::Judged;
use deposit::carrier::Carrier;
use refusals::Kind;

// One arm for each kind, since its rows are of a type of their own.
fn row_in_range<C: Carrier>(c: &C, kind: Kind, row: usize) -> bool
    ensures { result ≡ in_range (C.Carrier.meaning c.now) kind row }
{
    match kind {
        Kind::Head => c.head(row).is_in_range(c),
        Kind::Line => c.line(row).is_in_range(c),
        Kind::Stop => c.stop(row).is_in_range(c),
        Kind::Profile => c.profile(row).is_in_range(c),
        Kind::Special => c.special(row).is_in_range(c),
        Kind::Link => c.link(row).is_in_range(c),
        Kind::Section => c.section(row).is_in_range(c),
        Kind::Use => c.use_of_section(row).is_in_range(c),
        Kind::Pattern => c.pattern(row).is_in_range(c),
        Kind::Override => c.override_row(row).is_in_range(c),
        Kind::Journey => c.journey(row).is_in_range(c),
    }
}

/// Whether the values of a row are in their ranges and its references within the lists of the deposit.
pub fn in_range<C: Carrier>(c: &C, kind: Kind, row: usize) -> bool
    ensures value { result ≡ in_range (C.Carrier.meaning c.now) kind row }
    ensures words { Decides result (InRange (C.Carrier.meaning c.now) kind row) }
{
    row_in_range(c, kind, row)
}

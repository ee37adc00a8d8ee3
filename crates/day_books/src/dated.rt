// A day with a kind of holiday, as it stands in a list of days.
ghost use Rattle.day_books.specs.Entries.{no_later};
ghost use Rattle.std.proofs.Common.{rules};

use ranked::Rank;

/// An entry: a day and the number of a kind. Any day and any number are taken; what they tell is the book's to say.
#[derive(Clone, Copy, Debug, PartialEq, Eq)]
pub struct DatedKind {
    pub day: u32,
    /// A number and no `HolidayKind`: a planner may list any number, and asking for a kind would ask more of callers.
    pub kind: u8,
}

/// Entries rank by their days.
impl Rank for DatedKind {
    ghost no_later = { no_later };

    ghost total = { Prim.search rules };

    ghost transitive = { Prim.search rules };

    fn ranks_no_later(&self, other: &DatedKind) -> bool {
        self.day <= other.day
    }
}

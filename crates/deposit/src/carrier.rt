// What carries the rows of a deposit: code above a carrier is proved once, against the deposit that it means.
ghost use Rattle.std.specs.Prelude.{◌≡◌, slice_index_or};
ghost use Rattle.deposit.specs.Deposit.{Deposit, count_of, head_of, line_of, stop_of, journey_of, no_head, no_line, no_stop, no_profile, no_special, no_link, no_section, no_use, no_pattern, no_override, no_journey};

use crate::rows::{
    HeadRow, JourneyRow, LineRow, LinkRow, OverrideRow, PatternRow, ProfileRow, SectionRow,
    SpecialRow, StopRow, UseRow,
};
use refusals::Kind;

/// Tells how many rows of each kind there are, and row n of a kind. Asking leaves it as it was, and it never refuses:
/// past the end of a list it gives a row of zeros, empty texts and nothing given.
pub trait Carrier {
    ghost meaning: { Self → Deposit };

    fn count(&self, kind: Kind) -> usize
        ensures { result ≡ count_of (meaning self.now) kind };

    // A method for each kind: the rows differ in type, and one `row::<R>` would ask a trait of eleven impls from every carrier.
    fn head(&self, row: usize) -> HeadRow<'_>
        ensures { head_of result ≡ slice_index_or (meaning self.now).heads row no_head };

    fn line(&self, row: usize) -> LineRow<'_>
        ensures { line_of result ≡ slice_index_or (meaning self.now).lines row no_line };

    fn stop(&self, row: usize) -> StopRow<'_>
        ensures { stop_of result ≡ slice_index_or (meaning self.now).stops row no_stop };

    fn profile(&self, row: usize) -> ProfileRow
        ensures { result ≡ slice_index_or (meaning self.now).profiles row no_profile };

    fn special(&self, row: usize) -> SpecialRow
        ensures { result ≡ slice_index_or (meaning self.now).specials row no_special };

    fn link(&self, row: usize) -> LinkRow
        ensures { result ≡ slice_index_or (meaning self.now).links row no_link };

    fn section(&self, row: usize) -> SectionRow
        ensures { result ≡ slice_index_or (meaning self.now).sections row no_section };

    fn use_of_section(&self, row: usize) -> UseRow
        ensures { result ≡ slice_index_or (meaning self.now).uses row no_use };

    fn pattern(&self, row: usize) -> PatternRow
        ensures { result ≡ slice_index_or (meaning self.now).patterns row no_pattern };

    fn override_row(&self, row: usize) -> OverrideRow
        ensures { result ≡ slice_index_or (meaning self.now).overrides row no_override };

    fn journey(&self, row: usize) -> JourneyRow<'_>
        ensures { journey_of result ≡ slice_index_or (meaning self.now).journeys row no_journey };
}

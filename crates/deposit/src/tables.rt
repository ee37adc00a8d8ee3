// A deposit in the depositor's tables: lent slices of rows.
ghost use Rattle.deposit.specs.Tables.{tables_mean};

use crate::carrier::Carrier;
use crate::rows::{
    HeadRow, JourneyRow, LineRow, LinkRow, OverrideRow, PatternRow, ProfileRow, SectionRow,
    SpecialRow, StopRow, UseRow,
};
use refusals::Kind;

// Lent slices and no `Vec`: the calls of the archive allocate nothing.
/// One table for each kind of row: `'a` lends the tables, `'t` the texts in them.
#[derive(Clone, Copy)]
pub struct Tables<'a, 't> {
    pub heads: &'a [HeadRow<'t>],
    pub lines: &'a [LineRow<'t>],
    pub stops: &'a [StopRow<'t>],
    pub profiles: &'a [ProfileRow],
    pub specials: &'a [SpecialRow],
    pub links: &'a [LinkRow],
    pub sections: &'a [SectionRow],
    pub uses: &'a [UseRow],
    pub patterns: &'a [PatternRow],
    pub overrides: &'a [OverrideRow],
    pub journeys: &'a [JourneyRow<'t>],
}

// Each read is one chain of the library: a generic function over a table would be no plainer. `Tables` derives no `==`: nothing compares it.
impl Carrier for Tables<'_, '_> {
    ghost meaning = { tables_mean };

    // One arm for each kind, since its table is of a type of its own.
    fn count(&self, kind: Kind) -> usize {
        match kind {
            Kind::Head => self.heads.len(),
            Kind::Line => self.lines.len(),
            Kind::Stop => self.stops.len(),
            Kind::Profile => self.profiles.len(),
            Kind::Special => self.specials.len(),
            Kind::Link => self.links.len(),
            Kind::Section => self.sections.len(),
            Kind::Use => self.uses.len(),
            Kind::Pattern => self.patterns.len(),
            Kind::Override => self.overrides.len(),
            Kind::Journey => self.journeys.len(),
        }
    }

    fn head(&self, row: usize) -> HeadRow<'_> {
        self.heads.get(row).copied().unwrap_or_default()
    }

    fn line(&self, row: usize) -> LineRow<'_> {
        self.lines.get(row).copied().unwrap_or_default()
    }

    fn stop(&self, row: usize) -> StopRow<'_> {
        self.stops.get(row).copied().unwrap_or_default()
    }

    fn profile(&self, row: usize) -> ProfileRow {
        self.profiles.get(row).copied().unwrap_or_default()
    }

    fn special(&self, row: usize) -> SpecialRow {
        self.specials.get(row).copied().unwrap_or_default()
    }

    fn link(&self, row: usize) -> LinkRow {
        self.links.get(row).copied().unwrap_or_default()
    }

    fn section(&self, row: usize) -> SectionRow {
        self.sections.get(row).copied().unwrap_or_default()
    }

    fn use_of_section(&self, row: usize) -> UseRow {
        self.uses.get(row).copied().unwrap_or_default()
    }

    fn pattern(&self, row: usize) -> PatternRow {
        self.patterns.get(row).copied().unwrap_or_default()
    }

    fn override_row(&self, row: usize) -> OverrideRow {
        self.overrides.get(row).copied().unwrap_or_default()
    }

    fn journey(&self, row: usize) -> JourneyRow<'_> {
        self.journeys.get(row).copied().unwrap_or_default()
    }
}

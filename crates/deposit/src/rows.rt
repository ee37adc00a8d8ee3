// The rows of a deposit, a struct for each kind. A row may still be wrong, so numbers stand in it as they came.
use times::moments::Moment;

/// 1: the service, its revision and its operating period.
#[derive(Clone, Copy, Debug, Default, PartialEq, Eq)]
pub struct HeadRow<'a> {
    pub service: &'a [u8],
    pub revision: u16,
    pub created: Moment,
    pub modified: Option<Moment>,
    pub modification: u8,
    pub start: u32,
    pub end: Option<u32>,
    pub profile: Option<u16>,
}

/// 2: a line, with a description of each direction; an empty text describes nothing.
#[derive(Clone, Copy, Debug, Default, PartialEq, Eq)]
pub struct LineRow<'a> {
    pub name: &'a [u8],
    pub outbound: &'a [u8],
    pub inbound: &'a [u8],
}

/// 3: a stop.
#[derive(Clone, Copy, Debug, Default, PartialEq, Eq)]
pub struct StopRow<'a> {
    pub code: &'a [u8],
    pub name: &'a [u8],
}

/// 4: an operating profile: weekdays by bits from Monday, holidays by bits from kind 1, and special days.
#[derive(Clone, Copy, Debug, Default, PartialEq, Eq)]
pub struct ProfileRow {
    pub weekdays: u8,
    pub runs: u16,
    pub not_runs: u16,
    pub first_special: u16,
    pub specials: u16,
}

/// 5: special days, on which a journey runs, 1, or does not, 0.
#[derive(Clone, Copy, Debug, Default, PartialEq, Eq)]
pub struct SpecialRow {
    pub first: u32,
    pub last: u32,
    pub runs: u8,
}

/// 6: a timing link from one stop to the next.
#[derive(Clone, Copy, Debug, Default, PartialEq, Eq)]
pub struct LinkRow {
    pub from: u16,
    pub to: u16,
    pub run: u32,
    pub from_wait: u32,
    pub to_wait: u32,
    pub from_activity: u8,
    pub to_activity: u8,
}

/// 7: a section: timing links in a row.
#[derive(Clone, Copy, Debug, Default, PartialEq, Eq)]
pub struct SectionRow {
    pub first_link: u16,
    pub links: u16,
}

/// 8: the use of a section in a pattern.
#[derive(Clone, Copy, Debug, Default, PartialEq, Eq)]
pub struct UseRow {
    pub section: u16,
}

/// 9: a journey pattern: uses of sections in a row.
#[derive(Clone, Copy, Debug, Default, PartialEq, Eq)]
pub struct PatternRow {
    pub direction: u8,
    pub first_use: u16,
    pub uses: u16,
}

/// 10: other times of one journey on the link at a position of its pattern.
#[derive(Clone, Copy, Debug, Default, PartialEq, Eq)]
pub struct OverrideRow {
    pub position: u16,
    pub run: Option<u32>,
    pub from_wait: Option<u32>,
    pub to_wait: Option<u32>,
}

/// 11: a vehicle journey.
#[derive(Clone, Copy, Debug, Default, PartialEq, Eq)]
pub struct JourneyRow<'a> {
    pub code: &'a [u8],
    pub line: u16,
    pub pattern: Option<u16>,
    pub other: Option<u16>,
    pub profile: Option<u16>,
    pub departure: u32,
    pub day_shift: u8,
    pub first_override: u16,
    pub overrides: u16,
}

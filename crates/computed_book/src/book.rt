// The computed book: the holidays of England and Wales by their rules, without substitute days.
ghost use Rattle.std.specs.Prelude.{◌≡◌};
ghost use Rattle.calendar.specs.Kinds.{told_kind};
ghost use Rattle.computed_book.specs.Rules.{keeps, first_kind, computed_kind, computed_few, computed_ends};
ghost use Rattle.computed_book.specs.Words.{Holidays};

use crate::easter::easter_sunday;
use calendar::books::{DayBook, HolidayKind};
use calendar::dates::Date;
use calendar::tables::{HOLIDAYS, Holiday, HolidayRule};
use calendar::weeks::Weekday;

// Whether a date falls by the rule: one arm for each case of a closed enum, whose holidays stand in a constant table. Its day goes
// along, since who asks knows it and eight rules would each count it again.
fn falls(rule: HolidayRule, day: u32, date: Date) -> bool
    ensures { result ≡ keeps rule day date.year date.month date.of_month }
{
    match rule {
        HolidayRule::Date { month, of_month } => date.month == month && date.of_month == of_month,
        HolidayRule::First { weekday, month } => {
            date.month == month && Weekday::of(day) == weekday && date.of_month <= 7
        }
        HolidayRule::Last { weekday, month } => {
            date.month == month
                && Weekday::of(day) == weekday
                && date.month_length() < date.of_month + 7
        }
        HolidayRule::BeforeEaster { days } => {
            easter_sunday(date.year).is_ok_and(|sunday| sunday.checked_sub(days) == Some(day))
        }
        HolidayRule::AfterEaster { days } => {
            easter_sunday(date.year).is_ok_and(|sunday| day.checked_sub(sunday) == Some(days))
        }
    }
}

// The kind of the first holiday whose rule a day with its date keeps.
fn first_kind(holidays: &[Holiday], day: u32, date: Date) -> Option<HolidayKind>
    ensures { told_kind result ≡ first_kind holidays.now day date.year date.month date.of_month }
{
    holidays
        .iter()
        .find(|holiday| falls(holiday.rule, day, date))
        .map(|holiday| holiday.kind)
}

/// The book that knows the eight holidays by their rules.
#[derive(Clone, Copy, Debug, PartialEq, Eq)]
pub struct ComputedBook;

impl DayBook for ComputedBook {
    ghost kind_of = { λ _ day. computed_kind day };

    ghost few = { λ _ day. computed_few day };

    ghost ends = { λ _ day. computed_ends day };

    fn kind(&self, day: u32) -> Option<HolidayKind>
        ensures meaning { told_kind result ≡ computed_kind day }
        ensures words { Holidays day (told_kind result) }
    {
        let date = Date::of(day).ok()?;
        first_kind(&HOLIDAYS, day, date)
    }
}

// Days from 1 January 2000, which is day 0, to 31 December 2199, and their dates.
ghost use Rattle.std.specs.Prelude.{◌≡◌, ℕ, ◌+◌, ◌-◌, ◌<◌, ◌≤◌, IfOk, Ok, Result as ResultOf, length, sum, slice_index};
ghost use Rattle.refusals.specs.declared.Refusal.{Refusal as RefusalOf};
ghost use Rattle.calendar.specs.Dates.{leap, year_start, lengths, month_start, last_day, MonthTold, Valid, Splits, Joins, MonthHolds};

use crate::tables::MONTH_LENGTHS;
use refusals::Refusal;

/// 31 December 2199.
pub const LAST_DAY: u32 = 73_048;

// 1 January 2100: before it every fourth year is a leap year, from the first on.
const CENTURY: u32 = 36_525;

/// A date of the calendar.
#[derive(Clone, Copy, Debug, PartialEq, Eq)]
pub struct Date {
    pub year: u16,
    pub month: u8,
    pub of_month: u8,
    ghost valid: { Valid year month of_month },
}

impl Date {
    ghost use Rattle.calendar.specs.declared.dates.Date.{Date as DateOf};
    ghost use Rattle.calendar.specs.Made.{day_of, DateMade, DateTold};

    /// The date of a year, a month and a day of the month; 40 where they are no date of the calendar.
    pub fn new(year: u16, month: u8, of_month: u8) -> Result<Date, Refusal>
        ensures answer { DateMade year month of_month result }
    {
        if !(1..=month_length(year, month)?).contains(&of_month) {
            return Err(Refusal::OutOfRange);
        }
        Ok(Date {
            year,
            month,
            of_month,
        })
    }

    /// The date of a day; 40 for a number past the last day.
    pub fn of(day: u32) -> Result<Date, Refusal>
        ensures answer { DateTold day result }
        ensures back { IfOk result (λ date. day_of date ≡ day) }
    {
        if day > LAST_DAY {
            return Err(Refusal::OutOfRange);
        }
        let years = years_before(day);
        let year = 2000 + years as u16;
        let (month, left) = month_holding(year, day - days_before_year(years));
        Ok(Date {
            year,
            month,
            of_month: left as u8 + 1,
        })
    }

    /// The day of this date.
    pub fn day(self) -> u32
        ensures value { result ≡ day_of self }
        ensures within { result ≤ last_day }
        ensures back { (s : ResultOf DateOf RefusalOf) → DateTold result s → DateMade self.year self.month self.of_month s }
    {
        let before_year = days_before_year(u32::from(self.year - 2000));
        let before_month = total(&month_lengths(self.year)[..self.month as usize - 1]);
        before_year + before_month + u32::from(self.of_month) - 1
    }

    /// The days of this date's month.
    pub fn month_length(self) -> u8
        ensures value { result ≡ slice_index (lengths (leap self.year)) (self.month - 1) }
    {
        month_lengths(self.year)[self.month as usize - 1]
    }
}

fn is_leap(year: u16) -> bool
    ensures { result ≡ leap year }
{
    year % 4 == 0 && (year % 100 != 0 || year % 400 == 0)
}

// The days of each month of a year.
fn month_lengths(year: u16) -> [u8; 12]
    ensures { result ≡ lengths (leap year) }
{
    let mut days = MONTH_LENGTHS;
    if is_leap(year) {
        days[1] = 29;
    }
    days
}

/// The days of a month of a year; 40 for a year outside the calendar or a number that is no month.
pub fn month_length(year: u16, month: u8) -> Result<u8, Refusal>
    ensures answer { MonthTold year month result }
{
    if !(2000..2200).contains(&year) || !(1..=12).contains(&month) {
        return Err(Refusal::OutOfRange);
    }
    Ok(month_lengths(year)[month as usize - 1])
}

// The days before the year `2000 + years`.
fn days_before_year(years: u32) -> u32
    requires { years ≤ 200 }
    ensures { result ≡ year_start years }
{
    let days = (1461 * years + 3) / 4;
    if years > 100 { days - 1 } else { days }
}

// The days of some months together.
fn total(lengths: &[u8]) -> u32
    requires { length lengths.now ≤ 12 }
    ensures { result ≡ sum lengths.now }
{
    lengths.iter().map(|&days| u32::from(days)).sum()
}

// The whole years from 2000 to a day.
fn years_before(day: u32) -> u32
    requires { day ≤ last_day }
    ensures within { result < 200 }
    ensures begun { year_start result ≤ day }
    ensures last { day < year_start (result + 1) }
{
    let shifted = if day >= CENTURY { day + 1 } else { day };
    4 * shifted / 1461
}

// The month of a year that holds a day of the year, which counts from 0, and the days of that month before it.
fn month_holding(year: u16, of_year: u32) -> (u8, u32)
    requires { of_year < month_start (leap year) 13 }
    ensures { MonthHolds (leap year) of_year result.0 result.1 }
{
    let lengths = month_lengths(year);
    let mut left = of_year;
    // tried a zip of months and lengths: it left goals open
    for month in 1..12 {
        let length = u32::from(lengths[month as usize - 1]);
        if left < length {
            return (month, left);
        }
        left -= length;
    }
    (12, left)
}

// Plain numbers here and in `join`, for who holds no `Date`; those that `join` takes may be none.
/// The year, the month and the day of the month of a day; 40 for a number past the last day.
pub fn split(day: u32) -> Result<(u16, u8, u8), Refusal>
    ensures answer { Splits day result }
    ensures back { IfOk result (λ t. (s : ResultOf ℕ RefusalOf) → Joins t.0 t.1 t.2 s → s ≡ Ok day) }
{
    let date = Date::of(day)?;
    Ok((date.year, date.month, date.of_month))
}

/// The day of a year, a month and a day of the month; 40 where they are no date of the calendar.
pub fn join(year: u16, month: u8, of_month: u8) -> Result<u32, Refusal>
    ensures answer { Joins year month of_month result }
    ensures back { IfOk result (λ day. (s : ResultOf (ℕ × ℕ × ℕ) RefusalOf) → Splits day s → s ≡ Ok (year, month, of_month)) }
{
    Ok(Date::new(year, month, of_month)?.day())
}

// The years of the calendar.
ghost use Rattle.std.specs.Prelude.{◌≡◌, ◌<◌, ◌≤◌, option_map, if◌then◌else◌, Some, None, ◌-◌};
ghost use Rattle.calendar.specs.Dates.{day_number, last_day};
ghost use Rattle.holiday_lines.specs.Reads.{digit, year_read};

use calendar::dates::Date;

// The value of an ASCII digit.
fn digit(byte: u8) -> Option<u16>
    ensures { result ≡ (if digit byte then Some (byte - 48) else None) }
{
    byte.is_ascii_digit().then(|| u16::from(byte - b'0'))
}

// Nothing compares years, so `==` is not derived.
/// A year from 2000 to 2199.
#[derive(Clone, Copy)]
pub(crate) struct Year {
    number: u16,
    ghost from: { 2000 ≤ number },
    ghost to: { number < 2200 },
}

impl Year {
    /// The year that a line of exactly four digits names.
    pub(crate) fn named(line: &[u8]) -> Option<Year>
        ensures { option_map (λ year. year.number) result ≡ year_read line.now }
    {
        let &[a, b, c, d] = line else {
            return None;
        };
        let number = 1000 * digit(a)? + 100 * digit(b)? + 10 * digit(c)? + digit(d)?;
        if !(2000..2200).contains(&number) {
            return None;
        }
        Some(Year { number })
    }

    // Two named days: one function of month and day would ask its callers that they are a date.
    /// Its first day.
    pub(crate) fn first_day(self) -> u32
        ensures value { result ≡ day_number self.number 1 1 }
        ensures within { result ≤ last_day }
    {
        let date = Date {
            year: self.number,
            month: 1,
            of_month: 1,
        };
        date.day()
    }

    /// Its last day.
    pub(crate) fn last_day(self) -> u32
        ensures value { result ≡ day_number self.number 12 31 }
        ensures within { result ≤ last_day }
    {
        let date = Date {
            year: self.number,
            month: 12,
            of_month: 31,
        };
        date.day()
    }
}

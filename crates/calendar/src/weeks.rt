// The days of the week.
ghost use Rattle.std.specs.Prelude.{◌≡◌};
ghost use Rattle.calendar.specs.Weeks.{weekday_number, weekday_name, weekday_of, Week};

/// A day of the week; a week begins on Monday, which has number 0.
#[derive(Clone, Copy, Debug, PartialEq, Eq)]
pub enum Weekday {
    Monday = 0,
    Tuesday = 1,
    Wednesday = 2,
    Thursday = 3,
    Friday = 4,
    Saturday = 5,
    Sunday = 6,
}

impl Weekday {
    /// The weekday of a day. The week goes on where the calendar ends, so every number has one.
    pub fn of(day: u32) -> Weekday
        ensures value { weekday_number result ≡ weekday_of day }
        ensures week { Week }
    {
        // A match and no `TryFrom`: a remainder is always a weekday, and a conversion that may fail would need an arm that never runs.
        match day % 7 {
            0 => Weekday::Saturday,
            1 => Weekday::Sunday,
            2 => Weekday::Monday,
            3 => Weekday::Tuesday,
            4 => Weekday::Wednesday,
            5 => Weekday::Thursday,
            _ => Weekday::Friday,
        }
    }

    /// 0 for Monday to 6 for Sunday.
    pub fn number(self) -> u8
        ensures value { result ≡ weekday_number self }
    {
        self as u8
    }

    // The table of names, as a match over the closed enum of weekdays.
    /// The English name.
    pub fn name(self) -> &'static str
        ensures value { result.now ≡ weekday_name self }
    {
        match self {
            Weekday::Monday => "Monday",
            Weekday::Tuesday => "Tuesday",
            Weekday::Wednesday => "Wednesday",
            Weekday::Thursday => "Thursday",
            Weekday::Friday => "Friday",
            Weekday::Saturday => "Saturday",
            Weekday::Sunday => "Sunday",
        }
    }
}

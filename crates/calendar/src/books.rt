// Day books: which days are holidays, and of which kind.
ghost use Rattle.std.specs.Prelude.{◌≡◌, ℕ, ◌<◌, ◌≤◌};
ghost use Rattle.calendar.specs.Dates.{last_day};
ghost use Rattle.calendar.specs.Kinds.{greatest_kind, kind_number, kind_name, told_kind, KindRead};

use refusals::Refusal;

/// A kind of holiday, with a number from 1 on.
#[derive(Clone, Copy, Debug, PartialEq, Eq)]
pub enum HolidayKind {
    NewYearsDay = 1,
    GoodFriday = 2,
    EasterMonday = 3,
    MayDay = 4,
    SpringBank = 5,
    LateSummerBank = 6,
    ChristmasDay = 7,
    BoxingDay = 8,
}

// No library call gives the case of a discriminant.
/// The kind that a number stands for; 40 for 0 and for a number above the greatest kind.
impl TryFrom<u8> for HolidayKind {
    type Error = Refusal;

    ghost try_from_gives = { KindRead };

    fn try_from(number: u8) -> Result<HolidayKind, Refusal> {
        match number {
            1 => Ok(HolidayKind::NewYearsDay),
            2 => Ok(HolidayKind::GoodFriday),
            3 => Ok(HolidayKind::EasterMonday),
            4 => Ok(HolidayKind::MayDay),
            5 => Ok(HolidayKind::SpringBank),
            6 => Ok(HolidayKind::LateSummerBank),
            7 => Ok(HolidayKind::ChristmasDay),
            8 => Ok(HolidayKind::BoxingDay),
            _ => Err(Refusal::OutOfRange),
        }
    }
}

impl HolidayKind {
    /// The number of this kind.
    pub fn number(self) -> u8
        ensures value { result ≡ kind_number self }
    {
        self as u8
    }

    // The table of names, as a match over the closed enum of kinds.
    /// The English name.
    pub fn name(self) -> &'static str
        ensures value { result.now ≡ kind_name self }
    {
        match self {
            HolidayKind::NewYearsDay => "New Year's Day",
            HolidayKind::GoodFriday => "Good Friday",
            HolidayKind::EasterMonday => "Easter Monday",
            HolidayKind::MayDay => "May Day",
            HolidayKind::SpringBank => "Spring Bank Holiday",
            HolidayKind::LateSummerBank => "Late Summer Bank Holiday",
            HolidayKind::ChristmasDay => "Christmas Day",
            HolidayKind::BoxingDay => "Boxing Day",
        }
    }
}

/// A book that tells of each day whether it is a holiday. Its meaning is a table from days to the numbers of kinds,
/// 0 for none; its laws stand here, so that no book has another.
pub trait DayBook {
    ghost kind_of: { Self → ℕ → ℕ };

    /// The kind of holiday that a day is, if it is one.
    fn kind(&self, day: u32) -> Option<HolidayKind>
        ensures { told_kind result ≡ kind_of self.now day };

    ghost few: { (book : Self) (day : ℕ) → kind_of book day ≤ greatest_kind };

    ghost ends: { (book : Self) (day : ℕ) → last_day < day → kind_of book day ≡ 0 };
}

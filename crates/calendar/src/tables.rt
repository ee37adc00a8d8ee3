// The two constant tables of the calendar: how long each month is, and by which rule each holiday falls.
use crate::books::HolidayKind;
use crate::weeks::Weekday;

/// The days of each month of a common year.
pub const MONTH_LENGTHS: [u8; 12] = [31, 28, 31, 30, 31, 30, 31, 31, 30, 31, 30, 31];

/// The rule by which a holiday falls in each year.
#[derive(Clone, Copy, Debug, PartialEq, Eq)]
pub enum HolidayRule {
    /// On one date.
    Date { month: u8, of_month: u8 },
    /// On the first such weekday of a month.
    First { weekday: Weekday, month: u8 },
    /// On the last such weekday of a month.
    Last { weekday: Weekday, month: u8 },
    /// So many days before Easter Sunday.
    BeforeEaster { days: u32 },
    /// So many days after Easter Sunday.
    AfterEaster { days: u32 },
}

/// A holiday: its kind and its rule.
#[derive(Clone, Copy, Debug, PartialEq, Eq)]
pub struct Holiday {
    pub kind: HolidayKind,
    pub rule: HolidayRule,
}

/// The holidays of the computed book, without substitute days.
pub const HOLIDAYS: [Holiday; 8] = [
    Holiday {
        kind: HolidayKind::NewYearsDay,
        rule: HolidayRule::Date {
            month: 1,
            of_month: 1,
        },
    },
    Holiday {
        kind: HolidayKind::GoodFriday,
        rule: HolidayRule::BeforeEaster { days: 2 },
    },
    Holiday {
        kind: HolidayKind::EasterMonday,
        rule: HolidayRule::AfterEaster { days: 1 },
    },
    Holiday {
        kind: HolidayKind::MayDay,
        rule: HolidayRule::First {
            weekday: Weekday::Monday,
            month: 5,
        },
    },
    Holiday {
        kind: HolidayKind::SpringBank,
        rule: HolidayRule::Last {
            weekday: Weekday::Monday,
            month: 5,
        },
    },
    Holiday {
        kind: HolidayKind::LateSummerBank,
        rule: HolidayRule::Last {
            weekday: Weekday::Monday,
            month: 8,
        },
    },
    Holiday {
        kind: HolidayKind::ChristmasDay,
        rule: HolidayRule::Date {
            month: 12,
            of_month: 25,
        },
    },
    Holiday {
        kind: HolidayKind::BoxingDay,
        rule: HolidayRule::Date {
            month: 12,
            of_month: 26,
        },
    },
];

// Dates with their day numbers and weekdays, counted by another calendar program, and what is no date.
use calendar::dates::{Date, join, month_length, split};
use calendar::weeks::Weekday;
use refusals::Refusal;
use std::test::Fail;
use times::moments::Moment;
use times::seconds::{AbsoluteTime, RelativeTime};

// Day, year, month, day of the month, weekday.
const DATES: [(u32, u16, u8, u8, Weekday); 12] = [
    (0, 2000, 1, 1, Weekday::Saturday),
    (59, 2000, 2, 29, Weekday::Tuesday),
    (60, 2000, 3, 1, Weekday::Wednesday),
    (365, 2000, 12, 31, Weekday::Sunday),
    (366, 2001, 1, 1, Weekday::Monday),
    (8036, 2022, 1, 1, Weekday::Saturday),
    (36524, 2099, 12, 31, Weekday::Thursday),
    (36525, 2100, 1, 1, Weekday::Friday),
    (36583, 2100, 2, 28, Weekday::Sunday),
    (36584, 2100, 3, 1, Weekday::Monday),
    (38044, 2104, 2, 29, Weekday::Friday),
    (73048, 2199, 12, 31, Weekday::Tuesday),
];

// Three numbers that are no date of the calendar.
const NO_DATES: [(u16, u8, u8); 9] = [
    (1999, 12, 31),
    (2200, 1, 1),
    (2022, 0, 1),
    (2022, 13, 1),
    (2022, 1, 0),
    (2022, 4, 31),
    (2023, 2, 29),
    (2100, 2, 29),
    (2024, 2, 30),
];

#[test]
fn days_split_and_join(rt: HostRuntime) -> Result<(), Fail> {
    for &(day, year, month, of_month, weekday) in &DATES {
        assert_eq!(rt; split(day), Ok((year, month, of_month)));
        assert_eq!(rt; join(year, month, of_month), Ok(day));
        assert_eq!(rt; Date::of(day), Date::new(year, month, of_month));
        assert_eq!(rt; Date::of(day)?.day(), day);
        assert_eq!(rt; Weekday::of(day), weekday);
    }
    Ok(())
}

#[test]
fn no_days_are_refused(rt: HostRuntime) {
    assert_eq!(rt; split(73_049), Err(Refusal::OutOfRange));
    assert_eq!(rt; split(u32::MAX), Err(Refusal::OutOfRange));
    for &(year, month, of_month) in &NO_DATES {
        assert_eq!(rt; join(year, month, of_month), Err(Refusal::OutOfRange));
    }
    assert_eq!(rt; month_length(2100, 2), Ok(28));
    assert_eq!(rt; month_length(2000, 2), Ok(29));
    assert_eq!(rt; month_length(2000, 13), Err(Refusal::OutOfRange));
}

#[test]
fn moments_and_times(rt: HostRuntime) -> Result<(), Fail> {
    assert!(rt; Moment::new(73_049, 0).is_err());
    assert!(rt; Moment::new(0, 86_400).is_err());
    let noon = Moment::new(8036, 43_200)?;
    let midnight = Moment::new(8037, 0)?;
    assert!(rt; midnight.is_later_than(noon));
    assert!(rt; !noon.is_later_than(midnight));
    assert!(rt; !noon.is_later_than(noon));
    let eight = AbsoluteTime(28_800);
    assert_eq!(rt;
        eight.checked_add(RelativeTime(300)),
        Some(AbsoluteTime(29_100))
    );
    let second = RelativeTime(1);
    assert_eq!(rt; second.checked_add(RelativeTime(u32::MAX)), None);
    Ok(())
}

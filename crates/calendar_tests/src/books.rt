// The bank holidays of England and Wales as they were announced, and a listed book of a planner's own.
use calendar::books::{DayBook, HolidayKind};
use calendar::dates::Date;
use computed_book::book::ComputedBook;
use day_books::dated::DatedKind;
use day_books::listed::ListedBook;
use refusals::Refusal;
use std::test::Fail;

// Year, month, day of the month, kind: days of 2021 and 2023 that were no substitutes.
const HOLIDAYS: [(u16, u8, u8, HolidayKind); 13] = [
    (2021, 1, 1, HolidayKind::NewYearsDay),
    (2021, 4, 2, HolidayKind::GoodFriday),
    (2021, 4, 5, HolidayKind::EasterMonday),
    (2021, 5, 3, HolidayKind::MayDay),
    (2021, 5, 31, HolidayKind::SpringBank),
    (2021, 8, 30, HolidayKind::LateSummerBank),
    (2021, 12, 25, HolidayKind::ChristmasDay),
    (2021, 12, 26, HolidayKind::BoxingDay),
    (2023, 4, 7, HolidayKind::GoodFriday),
    (2023, 4, 10, HolidayKind::EasterMonday),
    (2023, 5, 1, HolidayKind::MayDay),
    (2023, 5, 29, HolidayKind::SpringBank),
    (2023, 8, 28, HolidayKind::LateSummerBank),
];

// Year, month, day of the month: days that are no holidays.
const WORKDAYS: [(u16, u8, u8); 7] = [
    (2021, 12, 27),
    (2023, 1, 2),
    (2023, 5, 8),
    (2023, 4, 9),
    (2023, 8, 21),
    (2023, 5, 22),
    (2023, 12, 31),
];

#[test]
fn announced_holidays_are_computed(rt: HostRuntime) -> Result<(), Fail> {
    for &(year, month, of_month, kind) in &HOLIDAYS {
        let day = Date::new(year, month, of_month)?.day();
        assert_eq!(rt; ComputedBook.kind(day), Some(kind));
    }
    for &(year, month, of_month) in &WORKDAYS {
        let day = Date::new(year, month, of_month)?.day();
        assert_eq!(rt; ComputedBook.kind(day), None);
    }
    assert_eq!(rt; ComputedBook.kind(73_049), None);
    Ok(())
}

#[test]
fn first_entry_of_a_day_decides(rt: HostRuntime) -> Result<(), Fail> {
    let mut entries = [DatedKind { day: 0, kind: 0 }; 4];
    let mut book = ListedBook::over(&mut entries);
    book.add(8140, 2)?;
    book.add(8036, 9)?;
    book.add(8140, 3)?;
    book.add(73_049, 1)?;
    assert_eq!(rt; book.add(8143, 3), Err(Refusal::TooShort));
    assert_eq!(rt; book.kind(8140), Some(HolidayKind::GoodFriday));
    assert_eq!(rt; book.kind(8036), None);
    assert_eq!(rt; book.kind(8143), None);
    assert_eq!(rt; book.kind(73_049), None);
    Ok(())
}

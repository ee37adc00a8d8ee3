// The numbers by which users know kinds of holidays, weekdays and refusals.
use calendar::books::HolidayKind;
use calendar::dates::join;
use calendar::weeks::Weekday;
use day_books::dated::DatedKind;
use day_books::listed::ListedBook;
use refusals::Refusal;

const KINDS: [(HolidayKind, u8); 8] = [
    (HolidayKind::NewYearsDay, 1),
    (HolidayKind::GoodFriday, 2),
    (HolidayKind::EasterMonday, 3),
    (HolidayKind::MayDay, 4),
    (HolidayKind::SpringBank, 5),
    (HolidayKind::LateSummerBank, 6),
    (HolidayKind::ChristmasDay, 7),
    (HolidayKind::BoxingDay, 8),
];

const WEEKDAYS: [(Weekday, u8); 7] = [
    (Weekday::Monday, 0),
    (Weekday::Tuesday, 1),
    (Weekday::Wednesday, 2),
    (Weekday::Thursday, 3),
    (Weekday::Friday, 4),
    (Weekday::Saturday, 5),
    (Weekday::Sunday, 6),
];

#[test]
fn kinds_and_weekdays_have_their_numbers(rt: HostRuntime) {
    for &(kind, number) in &KINDS {
        assert_eq!(rt; kind.number(), number);
        assert_eq!(rt; HolidayKind::try_from(number), Ok(kind));
    }
    assert_eq!(rt; HolidayKind::try_from(0), Err(Refusal::OutOfRange));
    assert_eq!(rt; HolidayKind::try_from(9), Err(Refusal::OutOfRange));
    for &(weekday, number) in &WEEKDAYS {
        assert_eq!(rt; weekday.number(), number);
    }
}

#[test]
fn refusals_have_their_numbers(rt: HostRuntime) {
    let no_date = join(2100, 2, 29).map_err(Refusal::number);
    assert_eq!(rt; no_date, Err(40));
    let mut none: [DatedKind; 0] = [];
    let full = ListedBook::over(&mut none).add(8140, 2);
    assert_eq!(rt; full.map_err(Refusal::number), Err(44));
}

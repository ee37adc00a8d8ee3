// Easter Sundays as the almanacs print them, the earliest and the latest of two centuries among them.
use calendar::dates::{join, split};
use computed_book::easter::easter_sunday;
use refusals::Refusal;

// Year, month, day of the month.
const EASTERS: [(u16, u8, u8); 44] = [
    (2000, 4, 23),
    (2001, 4, 15),
    (2002, 3, 31),
    (2003, 4, 20),
    (2004, 4, 11),
    (2005, 3, 27),
    (2006, 4, 16),
    (2007, 4, 8),
    (2008, 3, 23),
    (2009, 4, 12),
    (2010, 4, 4),
    (2011, 4, 24),
    (2012, 4, 8),
    (2013, 3, 31),
    (2014, 4, 20),
    (2015, 4, 5),
    (2016, 3, 27),
    (2017, 4, 16),
    (2018, 4, 1),
    (2019, 4, 21),
    (2020, 4, 12),
    (2021, 4, 4),
    (2022, 4, 17),
    (2023, 4, 9),
    (2024, 3, 31),
    (2025, 4, 20),
    (2026, 4, 5),
    (2027, 3, 28),
    (2028, 4, 16),
    (2029, 4, 1),
    (2030, 4, 21),
    (2031, 4, 13),
    (2032, 3, 28),
    (2033, 4, 17),
    (2034, 4, 9),
    (2035, 3, 25),
    (2036, 4, 13),
    (2037, 4, 5),
    (2038, 4, 25),
    (2039, 4, 10),
    (2040, 4, 1),
    (2100, 3, 28),
    (2160, 3, 23),
    (2199, 4, 14),
];

#[test]
fn easters_are_the_almanacs(rt: HostRuntime) {
    for &(year, month, of_month) in &EASTERS {
        assert_eq!(rt; easter_sunday(year), join(year, month, of_month));
        assert_eq!(rt;
            easter_sunday(year).and_then(split),
            Ok((year, month, of_month))
        );
    }
    assert_eq!(rt; easter_sunday(1999), Err(Refusal::OutOfRange));
    assert_eq!(rt; easter_sunday(2200), Err(Refusal::OutOfRange));
}

// Easter Sunday.
ghost use Rattle.std.specs.Prelude.{◌≡◌, ◌<◌, ◌≤◌, IfOk};
ghost use Rattle.computed_book.specs.Easters.{rule_date, EasterTold, Paschal};

use calendar::dates::join;
use refusals::Refusal;

// The month and the day of the month of Easter Sunday, by the Meeus/Jones/Butcher rule and with its letters.
fn easter_date(year: u16) -> (u8, u8)
    requires from { 2000 ≤ year }
    requires to { year < 2200 }
    ensures { result ≡ rule_date year }
{
    let a = year % 19;
    let b = year / 100;
    let c = year % 100;
    let d = b / 4;
    let e = b % 4;
    let f = (b + 8) / 25;
    let g = (b - f + 1) / 3;
    let h = (19 * a + b - d - g + 15) % 30;
    let i = c / 4;
    let k = c % 4;
    let l = (32 + 2 * e + 2 * i - h - k) % 7;
    let m = (a + 11 * h + 22 * l) / 451;
    let n = h + l + 114 - 7 * m;
    ((n / 31) as u8, (n % 31 + 1) as u8)
}

/// The day of Easter Sunday in a year; 40 for a year outside the calendar.
pub fn easter_sunday(year: u16) -> Result<u32, Refusal>
    ensures answer { EasterTold year result }
    ensures feast { IfOk result (Paschal year) }
{
    if !(2000..2200).contains(&year) {
        return Err(Refusal::OutOfRange);
    }
    let (month, of_month) = easter_date(year);
    join(year, month, of_month)
}

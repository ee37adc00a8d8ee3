// The text of a year's days, one day behind another.
ghost use Rattle.std.specs.Prelude.{◌+◌, ◌≤◌, length, Some};
ghost use Rattle.calendar.specs.Dates.{last_day};
ghost use Rattle.writing.specs.Puts.{Put};
ghost use Rattle.pieces.specs.Texts.{RoomBehind};
ghost use Rattle.holiday_lines.specs.Texts.{text_on, text_of};

use crate::line::line_of;
use crate::year::Year;
use calendar::books::DayBook;
use pieces::write::{put_pieces, room_behind};

// A text is measured beside being written, as in `pieces`: one that does not fit must leave the buffer as it was. A struct of a book
// with a year or a buffer would be taken apart at once.
// What is left of so many bytes behind the text of a day; nothing where it does not fit.
fn room_behind_day<B: DayBook>(book: &B, day: u32, room: usize) -> Option<usize>
    requires { day ≤ last_day }
    ensures { RoomBehind (text_on (B.kind_of book.now) day) room result }
{
    match book.kind(day) {
        Some(kind) => room_behind(&line_of(day, kind), room),
        None => Some(room),
    }
}

/// What is left of so many bytes behind the lines of a year's holidays; nothing where they do not fit.
pub(crate) fn room_behind_year<B: DayBook>(book: &B, year: Year, room: usize) -> Option<usize>
    ensures { RoomBehind (text_of (B.kind_of book.now) (Some year.number)) room result }
{
    let mut left = room;
    for day in year.first_day()..=year.last_day() {
        left = room_behind_day(book, day, left)?;
    }
    Some(left)
}

// Writes the text of a day: a day that is no holiday has none, and a chain of `map_or` would be no plainer.
fn put_day<B: DayBook>(book: &B, day: u32, out: &mut [u8], at: usize) -> usize
    requires within { day ≤ last_day }
    requires room { at + length (text_on (B.kind_of book.now) day) ≤ length out.old }
    ensures { Put out.old at (text_on (B.kind_of book.now) day) out.new result }
{
    match book.kind(day) {
        Some(kind) => put_pieces(out, at, &line_of(day, kind)),
        None => at,
    }
}

/// Writes the lines of a year's holidays at the front.
pub(crate) fn put_year<B: DayBook>(book: &B, year: Year, out: &mut [u8]) -> usize
    requires { length (text_of (B.kind_of book.now) (Some year.number)) ≤ length out.old }
    ensures { Put out.old 0 (text_of (B.kind_of book.now) (Some year.number)) out.new result }
{
    let mut at = 0;
    for day in year.first_day()..=year.last_day() {
        at = put_day(book, day, out, at);
    }
    at
}

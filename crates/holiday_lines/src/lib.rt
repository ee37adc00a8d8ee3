// The holidays of a year as text, one line for each.
#![tactic(auto)]

ghost use Rattle.std.specs.Prelude.{Some};
ghost use Rattle.pieces.specs.Texts.{Written};
ghost use Rattle.holiday_lines.specs.Texts.{text_of, year_text};
ghost use Rattle.holiday_lines.specs.Words.{Told};

mod days;
mod line;
mod year;

use crate::days::{put_year, room_behind_year};
use crate::year::Year;
use calendar::books::DayBook;
use lines::refused_line;
use refusals::Refusal;

// Two lines, as `write_text` has: each measures and writes another thing.
// Writes the lines of a year's holidays at the front.
fn year_lines<B: DayBook>(book: &B, year: Year, out: &mut [u8]) -> Result<usize, Refusal>
    ensures { Written (text_of (B.kind_of book.now) (Some year.number)) out.old result out.new }
{
    room_behind_year(book, year, out.len()).ok_or(Refusal::TooShort)?;
    Ok(put_year(book, year, out))
}

/// Writes the text that answers one input line, given without its newline, at the front of `out` and tells its length.
/// Where the line is exactly the four digits of a year from 2000 to 2199, the text is one line for each day of that year to
/// which the book gives a kind; else it is the line that tells refusal 40. A buffer too short for the text is 44.
pub fn year_text<B: DayBook>(book: &B, line: &[u8], out: &mut [u8]) -> Result<usize, Refusal>
    ensures answer { Written (year_text (B.kind_of book.now) line.now) out.old result out.new }
    ensures words { Told (B.kind_of book.now) }
{
    match Year::named(line) {
        Some(year) => year_lines(book, year, out),
        None => refused_line(Refusal::OutOfRange, out),
    }
}

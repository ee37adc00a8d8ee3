// Prints the holidays of each year that standard input names, one year a line. Lines past the sixty-fourth are not read.
#![tactic(auto)]

ghost use Rattle.std.specs.Prelude.{◌≡◌, ◌≤◌, length, take};
ghost use Rattle.computed_book.specs.Rules.{computed_kind};
ghost use Rattle.holiday_lines.specs.Texts.{year_text};

use computed_book::book::ComputedBook;
use holiday_lines::year_text;
use lines::refused_line;
use std::io;
use std::io::{BufRead, BufReader, Write};

// How many lines are answered.
const MOST_LINES: usize = 64;

// The answer to one line, written into `out`; the program `accession` has the like of another text. A year's text has less than 500 bytes; were the buffer too short all the same,
// the answer would tell that.
fn answer<'a>(line: &[u8], out: &'a mut [u8]) -> &'a [u8]
    ensures bytes { length (year_text computed_kind line.now) ≤ length out.old → result.now ≡ year_text computed_kind line.now }
{
    // tried: `or_else` says nothing of the buffer that its closure holds where that is not called, and the proof did not close
    let length = match year_text(&ComputedBook, line, out) {
        Ok(length) => length,
        Err(refusal) => refused_line(refusal, out).unwrap_or(0),
    };
    &out[..length]
}

fn main(rt: HostRuntime) -> io::Result<()> {
    let heap = rt.alloc();
    let mut text = Vec::new(heap);
    // fixed: the library allocates nothing, so its texts are written into lent bytes
    let mut buffer = [0u8; 1024];
    for line in BufReader::new(heap, rt.stdin())?
        .split(heap, b'\n')
        .take(MOST_LINES)
    {
        let line = line?;
        text.extend_from_slice(answer(line.as_slice(), &mut buffer))?;
    }
    rt.stdout().write_all(text.as_slice())
}

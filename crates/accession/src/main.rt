// Prints the verdict on the sample deposit and on each of the broken ones, in the order of the rules.
#![tactic(auto)]

ghost use Rattle.std.specs.Prelude.{◌≡◌, ◌≤◌, length, take};
ghost use Rattle.deposit.specs.Tables.{tables_mean};
ghost use Rattle.profile.specs.Verdict.{verdict};
ghost use Rattle.verdict_lines.specs.Texts.{verdict_text};

use deposit::tables::Tables;
use lines::refused_line;
use profile::check::verdict;
use refusals::Rule;
use samples::broken::broken;
use samples::sample::sample;
use std::io;
use std::io::Write;
use verdict_lines::verdict_line;

// The rules in their order, each with the title of its line.
const TITLES: [(&[u8], Rule); 10] = [
    (b"counts", Rule::Counts),
    (b"ranges", Rule::Ranges),
    (b"revision", Rule::Revision),
    (b"period", Rule::Period),
    (b"description", Rule::Description),
    (b"days", Rule::Days),
    (b"reference", Rule::Reference),
    (b"joining", Rule::Joining),
    (b"overriding", Rule::Overriding),
    (b"codes", Rule::Codes),
];

// The line of the verdict on some tables, written into `out`. A line here has less than 60 bytes; were the buffer too short
// all the same, the line would tell that.
fn answer<'a>(title: &[u8], tables: &Tables<'_, '_>, out: &'a mut [u8]) -> &'a [u8]
    ensures bytes { length (verdict_text title.now (verdict (tables_mean tables.now))) ≤ length out.old → result.now ≡ verdict_text title.now (verdict (tables_mean tables.now)) }
{
    // tried in the program `holidays`: `or_else` says nothing of the buffer that its closure holds where that is not called
    let length = match verdict_line(title, verdict(tables), out) {
        Ok(length) => length,
        Err(refusal) => refused_line(refusal, out).unwrap_or(0),
    };
    &out[..length]
}

fn main(rt: HostRuntime) -> io::Result<()> {
    // fixed: the library allocates nothing, so its texts are written into lent bytes
    let mut buffer = [0u8; 128];
    rt.stdout()
        .write_all(answer(b"sample", &sample(), &mut buffer))?;
    for (title, rule) in TITLES {
        rt.stdout()
            .write_all(answer(title, &broken(rule), &mut buffer))?;
    }
    Ok(())
}

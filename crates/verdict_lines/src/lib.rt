// The line that tells the verdict on a deposit.
#![tactic(auto)]

ghost use Rattle.std.specs.Prelude.{◌≤◌, length, Some};
ghost use Rattle.refusals.specs.declared.DepositFault.TheVariants.{Breaks};
ghost use Rattle.pieces.specs.Texts.{Written};
ghost use Rattle.verdict_lines.specs.Texts.{fault_words, verdict_words, verdict_text};

use pieces::piece::Piece;
use pieces::write::write_text;
use refusals::{DepositFault, Kind, Refusal, Rule};

// The line of a fault, by its three values. Tried in the arm of `verdict_line`: under its nested pattern the proof did not close.
fn fault_line(
    title: &[u8],
    rule: Rule,
    kind: Kind,
    row: usize,
    line: &mut [u8],
) -> Result<usize, Refusal>
    ensures answer { Written (verdict_text title.now (Some (Breaks rule kind row))) line.old result line.new }
    ensures few { length (fault_words rule kind row) ≤ 79 }
{
    write_text(
        &[
            Piece::Text(title),
            Piece::Text(b": refused "),
            Piece::Number(usize::from(rule.number())),
            Piece::Text(b" kind "),
            Piece::Number(usize::from(kind.number())),
            Piece::Text(b" row "),
            Piece::Number(row),
            Piece::Text(b"\n"),
        ],
        line,
    )
}

/// Writes a title and the verdict under it, as one line, at the front of `line` and tells its length; 44 where it does not fit.
pub fn verdict_line(
    title: &[u8],
    verdict: Option<DepositFault>,
    line: &mut [u8],
) -> Result<usize, Refusal>
    ensures answer { Written (verdict_text title.now verdict) line.old result line.new }
    ensures few { length (verdict_words verdict) ≤ 79 }
{
    match verdict {
        Some(DepositFault::Breaks { rule, kind, row }) => fault_line(title, rule, kind, row, line),
        None => write_text(&[Piece::Text(title), Piece::Text(b": passes\n")], line),
    }
}

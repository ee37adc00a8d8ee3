// Lines of text, written into buffers that their owner lends.
#![tactic(auto)]

ghost use Rattle.pieces.specs.Texts.{Written};
ghost use Rattle.lines.specs.Texts.{refused_text};

use pieces::piece::Piece;
use pieces::write::write_text;
use refusals::Refusal;

// By pieces and not by `Display`, as `write_text` says.
/// Writes the line that tells a refusal at the front of `line` and tells its length; 44 where it does not fit.
pub fn refused_line(refusal: Refusal, line: &mut [u8]) -> Result<usize, Refusal>
    ensures answer { Written (refused_text refusal) line.old result line.new }
{
    let number = usize::from(refusal.number());
    write_text(
        &[
            Piece::Text(b"refused "),
            Piece::Number(number),
            Piece::Text(b"\n"),
        ],
        line,
    )
}

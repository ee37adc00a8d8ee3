// Writing pieces one behind the other.
ghost use Rattle.std.specs.Prelude.{◌≡◌, ◌+◌, ◌<◌, ◌≤◌, length};
ghost use Rattle.writing.specs.Puts.{Put};
ghost use Rattle.pieces.specs.Texts.{date_text, hex_digit, hex_text, piece_text, pieces_text, RoomBehind, Written};

use crate::piece::Piece;
use refusals::Refusal;
use writing::{number_length, put_bytes, put_digits, put_number};

// Bytes and place are two parameters here as in `writing`, and a text is measured beside being written: one that does not fit must
// leave the buffer as it was.
// What is left of so many bytes behind a piece; nothing where it does not fit.
fn room_behind_piece(piece: Piece<'_>, room: usize) -> Option<usize>
    ensures { RoomBehind (piece_text piece.entry) room result }
{
    match piece {
        Piece::Text(text) => room.checked_sub(text.len()),
        Piece::Number(number) => room.checked_sub(number_length(number)),
        Piece::Date { .. } => room.checked_sub(10),
        Piece::Hex(bytes) => room.checked_sub(bytes.len().checked_mul(3)?),
    }
}

// The library's upper-case digits are written by an allocating call.
fn hex_digit(number: u8) -> u8
    requires { number < 16 }
    ensures { result ≡ hex_digit number }
{
    if number < 10 {
        b'0' + number
    } else {
        b'A' - 10 + number
    }
}

fn put_hex(out: &mut [u8], at: usize, bytes: &[u8]) -> usize
    requires { at + length (hex_text bytes.now) ≤ length out.old }
    ensures { Put out.old at (hex_text bytes.now) out.new result }
{
    let mut next = at;
    for byte in bytes {
        let digits = [b' ', hex_digit(byte / 16), hex_digit(byte % 16)];
        next = put_bytes(out, next, &digits);
    }
    next
}

fn put_date(out: &mut [u8], at: usize, year: u16, month: u8, of_month: u8) -> usize
    requires { at + 10 ≤ length out.old }
    ensures { Put out.old at (date_text (year, month, of_month)) out.new result }
{
    let dash = put_digits(out, at, u64::from(year), 4);
    let month_at = put_bytes(out, dash, b"-");
    let second_dash = put_digits(out, month_at, u64::from(month), 2);
    let day_at = put_bytes(out, second_dash, b"-");
    put_digits(out, day_at, u64::from(of_month), 2)
}

fn put_piece(out: &mut [u8], at: usize, piece: Piece<'_>) -> usize
    requires { at + length (piece_text piece) ≤ length out.old }
    ensures { Put out.old at (piece_text piece.entry) out.new result }
{
    match piece {
        Piece::Text(text) => put_bytes(out, at, text),
        Piece::Number(number) => put_number(out, at, number),
        Piece::Date {
            year,
            month,
            of_month,
        } => put_date(out, at, year, month, of_month),
        Piece::Hex(bytes) => put_hex(out, at, bytes),
    }
}

/// What is left of so many bytes behind pieces; nothing where they do not fit. Their lengths might add up to more than a
/// number holds.
pub fn room_behind(pieces: &[Piece<'_>], room: usize) -> Option<usize>
    ensures answer { RoomBehind (pieces_text pieces.now) room result }
{
    let mut left = room;
    for piece in pieces {
        left = room_behind_piece(*piece, left)?;
    }
    Some(left)
}

/// Writes pieces from place `at` on and tells the place behind them. The caller has seen to the room.
pub fn put_pieces(out: &mut [u8], at: usize, pieces: &[Piece<'_>]) -> usize
    requires { at + length (pieces_text pieces.now) ≤ length out.old }
    ensures bytes { Put out.old at (pieces_text pieces.now) out.new result }
{
    let mut next = at;
    for piece in pieces {
        next = put_piece(out, next, *piece);
    }
    next
}

// tried `Display`: where `fmt` answers an error its contract says nothing, and the proof of 44 did not close
/// Writes a text made of pieces at the front of `out` and tells its length; 44 where it does not fit.
pub fn write_text(pieces: &[Piece<'_>], out: &mut [u8]) -> Result<usize, Refusal>
    ensures answer { Written (pieces_text pieces.now) out.old result out.new }
{
    room_behind(pieces, out.len()).ok_or(Refusal::TooShort)?;
    Ok(put_pieces(out, 0, pieces))
}

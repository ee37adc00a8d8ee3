// Bytes and decimal digits, written one after another into bytes that their owner lends.
// Bytes and place stay two parameters: a struct of both is no plainer, since every function would also say `new.out.ghost_name ≡ old.out.ghost_name`.
#![tactic(auto)]

ghost use Rattle.std.specs.Prelude.{◌+◌, ◌≤◌, ◌≡◌, length};
ghost use Rattle.writing.specs.Puts.{Put, padded};

use itoa::{Buffer, Integer};

/// Writes `bytes` from place `at` on and tells the place behind them. The caller has seen to the room.
pub fn put_bytes(out: &mut [u8], at: usize, bytes: &[u8]) -> usize
    requires { at + length bytes.now ≤ length out.old }
    ensures bytes { Put out.old at bytes.now out.new result }
{
    let end = at + bytes.len();
    out[at..end].copy_from_slice(bytes);
    end
}

/// Writes the last `width` decimal digits of a number, with zeros in front where it has fewer, and tells the place behind
/// them. The caller has seen to the room.
pub fn put_digits(out: &mut [u8], at: usize, number: u64, width: usize) -> usize
    requires { at + width ≤ length out.old }
    ensures bytes { Put out.old at (padded width number) out.new result }
{
    let end = at + width;
    let mut rest = number;
    // the last digit is the first to be known; tried `iter_mut().rev()`: the proof did not close
    for place in (at..end).rev() {
        out[place] = b'0' + (rest % 10) as u8;
        rest /= 10;
    }
    end
}

/// How many bytes `put_number` writes of a number: no more than the longest of its type has.
pub fn number_length<I: Integer>(number: I) -> usize
    ensures value { result ≡ length (I.text number) }
    ensures few { result ≤ I.MAX_STR_LEN }
{
    Buffer::new().format(number).len()
}

/// Writes a number in decimal, with no zero in front, and tells the place behind it. The caller has seen to the room.
pub fn put_number<I: Integer>(out: &mut [u8], at: usize, number: I) -> usize
    requires { at + length (I.text number) ≤ length out.old }
    ensures bytes { Put out.old at (I.text number) out.new result }
{
    put_bytes(out, at, Buffer::new().format(number).as_bytes())
}

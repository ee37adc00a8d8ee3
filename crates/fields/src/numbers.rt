// Numbers of fixed width in bytes, the greatest byte first.
ghost use Rattle.std.specs.Prelude.{◌≡◌, ℕ, ◌+◌, ◌^◌, ◌<◌, ◌≤◌, List, length};
ghost use Rattle.writing.specs.Puts.{Put};
ghost use Rattle.fields.specs.Forms.{byte_of, bytes2, bytes4};
ghost use Rattle.fields.specs.Fields.{byte_at, be2, be4};
ghost use Rattle.fields.specs.Backs.{byte_back, two_back, four_back};

use writing::put_bytes;

/// A number that stands in `N` bytes, the greatest first.
pub trait Number<const N: usize>: Copy {
    // How large it is, its bytes, and the number in the bytes from a place on.
    ghost value: { Self → ℕ };

    ghost bytes_of: { Self → List ℕ };

    ghost number_at: { List ℕ → ℕ → Self };

    /// The bytes of the number.
    fn to_bytes(self) -> [u8; N]
        ensures { result ≡ bytes_of self };

    /// The number in the bytes from a place on.
    fn read(bytes: &[u8], at: usize) -> Self
        requires { at + N ≤ length bytes.now }
        ensures { result ≡ number_at bytes.now at };

    // What was written is read again.
    ghost back: { (n : Self) → value n < 256 ^ N → number_at (bytes_of n) 0 ≡ n };
}

impl Number<1> for u8 {
    ghost value = { λ n. n };

    ghost bytes_of = { byte_of };

    ghost number_at = { byte_at };

    ghost back = { λ n h. byte_back n };

    fn to_bytes(self) -> [u8; 1] {
        u8::to_be_bytes(self)
    }

    fn read(bytes: &[u8], at: usize) -> u8 {
        bytes[at]
    }
}

impl Number<2> for u16 {
    ghost value = { λ n. n };

    ghost bytes_of = { bytes2 };

    ghost number_at = { be2 };

    ghost back = { λ n h. two_back n };

    fn to_bytes(self) -> [u8; 2] {
        u16::to_be_bytes(self)
    }

    fn read(bytes: &[u8], at: usize) -> u16 {
        u16::from_be_bytes([bytes[at], bytes[at + 1]])
    }
}

impl Number<4> for u32 {
    ghost value = { λ n. n };

    ghost bytes_of = { bytes4 };

    ghost number_at = { be4 };

    ghost back = { λ n h. four_back n };

    fn to_bytes(self) -> [u8; 4] {
        u32::to_be_bytes(self)
    }

    fn read(bytes: &[u8], at: usize) -> u32 {
        u32::from_be_bytes([bytes[at], bytes[at + 1], bytes[at + 2], bytes[at + 3]])
    }
}

// Bytes and a place, as `put_bytes` takes them.
/// Writes a number from place `at` on and tells the place behind it. The caller has seen to the room.
pub fn put<const N: usize, T: Number<N>>(out: &mut [u8], at: usize, number: T) -> usize
    requires { at + N ≤ length out.old }
    ensures { Put out.old at (T.bytes_of number) out.new result }
{
    put_bytes(out, at, &number.to_bytes())
}

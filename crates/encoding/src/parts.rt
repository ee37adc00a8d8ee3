// What stands in bytes, one behind the other.
ghost use Rattle.std.specs.Prelude.{◌≡◌, ℕ, ◌+◌, ◌≤◌, List, ◌++◌, length, unwrap_or, ⊤};
ghost use Rattle.writing.specs.Puts.{Put};
ghost use Rattle.fields.specs.Forms.{byte_of, bytes2, bytes4};
ghost use Rattle.layout.specs.Layout.{missing2, missing4};
ghost use Rattle.layout.specs.Writing.{field_of_text, moment};
ghost use Rattle.encoding.specs.Parts.{missing_moment};

use fields::numbers::put;
use layout::table::{MISSING_2, MISSING_4, TEXT};
use times::moments::Moment;
use writing::put_bytes;

/// A value that stands in bytes.
pub(crate) trait Part: Copy {
    // Its bytes, and which values have a form.
    ghost bytes_of: { Self → List ℕ };

    ghost can_put: { Self → Type 0 } = { λ _. ⊤ };

    /// Writes it at the front of the bytes and tells how many it took. The caller has seen to the room.
    fn put(self, out: &mut [u8]) -> usize
        requires can { can_put self }
        requires room { length (bytes_of self) ≤ length out.old }
        ensures { Put out.old 0 (bytes_of self) out.new result };

    /// This value, and behind it another.
    final fn then<B: Part>(self, next: B) -> (Self, B)
    where
        Self: Sized,
        ensures { result ≡ (self, next) }
    {
        (self, next)
    }
}

// A number of each width has an impl of its own: one for every `Number<N>` would leave `N` open.
impl Part for u8 {
    ghost bytes_of = { byte_of };

    fn put(self, out: &mut [u8]) -> usize {
        put(out, 0, self)
    }
}

impl Part for u16 {
    ghost bytes_of = { bytes2 };

    fn put(self, out: &mut [u8]) -> usize {
        put(out, 0, self)
    }
}

impl Part for u32 {
    ghost bytes_of = { bytes4 };

    fn put(self, out: &mut [u8]) -> usize {
        put(out, 0, self)
    }
}

// One value, and behind it another.
impl<A: Part, B: Part> Part for (A, B) {
    ghost bytes_of = { λ both. A.bytes_of both.0 ++ B.bytes_of both.1 };

    ghost can_put = { λ both. A.can_put both.0 × B.can_put both.1 };

    fn put(self, out: &mut [u8]) -> usize {
        let first = self.0.put(out);
        first + self.1.put(&mut out[first..])
    }
}

// A text, as a field.
impl Part for &[u8] {
    ghost bytes_of = { λ text. field_of_text text.now };

    ghost can_put = { λ text. length text.now ≤ 65535 };

    fn put(self, out: &mut [u8]) -> usize {
        let next = (TEXT, self.len() as u16).put(out);
        put_bytes(out, next, self)
    }
}

impl Part for Moment {
    ghost bytes_of = { moment };

    fn put(self, out: &mut [u8]) -> usize {
        (self.day, self.second).put(out)
    }
}

/// A value that can be missing, and what is written in its place.
pub(crate) trait Missing: Part {
    ghost MISSING: { Self };

    const MISSING: Self;
}

impl Missing for u16 {
    ghost MISSING = { missing2 };

    const MISSING: u16 = MISSING_2;
}

impl Missing for u32 {
    ghost MISSING = { missing4 };

    const MISSING: u32 = MISSING_4;
}

impl Missing for Moment {
    ghost MISSING = { missing_moment };

    const MISSING: Moment = Moment {
        day: MISSING_4,
        second: MISSING_4,
    };
}

// A value that is given, or what stands in its place.
impl<T: Missing> Part for Option<T> {
    ghost bytes_of = { λ given. T.bytes_of (unwrap_or given T.MISSING) };

    ghost can_put = { λ given. T.can_put (unwrap_or given T.MISSING) };

    fn put(self, out: &mut [u8]) -> usize {
        self.unwrap_or(T::MISSING).put(out)
    }
}

// Bytes at a place: the field that they begin with, what is in it and what stands behind it.
ghost use Rattle.std.specs.Prelude.{◌≡◌, ◌+◌, ◌^◌, ◌<◌, length, IfOk};
ghost use Rattle.std.specs.Result.{result_err};
ghost use Rattle.refusals.specs.declared.ByteFault.TheVariants.{Overruns};
ghost use Rattle.fields.specs.Fields as field;
ghost use Rattle.fields.specs.Firsts.{IsFirst};
ghost use Rattle.form.specs.Look.{unless};

use fields::reads::Field;
use refusals::ByteFault;

// Nothing compares them, so `==` is not derived.
/// Bytes, and the place where they begin.
#[derive(Clone, Copy)]
pub(crate) struct Placed<'a> {
    pub(crate) place: usize,
    pub(crate) bytes: &'a [u8],
    ghost fits: { place + length bytes.now < 2 ^ 64 },
}

impl<'a> Placed<'a> {
    /// Bytes that begin at a place.
    pub(crate) fn new(place: usize, bytes: &'a [u8]) -> Placed<'a>
        requires { place + length bytes.now < 2 ^ 64 }
        ensures place { result.place ≡ place }
        ensures bytes { result.bytes.now ≡ bytes.now }
    {
        Placed { place, bytes }
    }

    /// The field that is due here.
    pub(crate) fn first(self) -> Result<Field<'a>, ByteFault>
        ensures fault { result_err result ≡ unless (field.whole self.entry.bytes.now) (Overruns self.entry.place) }
        ensures parts { IfOk result (IsFirst self.entry.bytes.now) }
    {
        Field::first(self.bytes).ok_or(ByteFault::Overruns { place: self.place })
    }

    /// The content of that field.
    pub(crate) fn inside(self, first: Field<'a>) -> Placed<'a>
        requires { IsFirst self.bytes.now first }
        ensures place { result.place ≡ self.entry.place + 3 }
        ensures bytes { result.bytes.now ≡ field.content self.entry.bytes.now }
    {
        Placed::new(self.place + 3, first.content)
    }

    /// What stands behind that field.
    pub(crate) fn behind(self, first: Field<'a>) -> Placed<'a>
        requires { IsFirst self.bytes.now first }
        ensures place { result.place ≡ self.entry.place + field.size self.entry.bytes.now }
        ensures bytes { result.bytes.now ≡ field.after self.entry.bytes.now }
    {
        Placed::new(self.place + first.size(), first.after)
    }
}

// Reading fields.
ghost use Rattle.std.specs.Prelude.{◌≡◌, ◌+◌, ◌≤◌, length, is_some, IfSome};
ghost use Rattle.fields.specs.Fields as field;
ghost use Rattle.fields.specs.Firsts.{IsFirst};

use crate::numbers::Number;

// Nothing compares fields, so `==` is not derived.
/// The field that bytes begin with.
#[derive(Clone, Copy)]
pub struct Field<'a> {
    pub tag: u8,
    pub content: &'a [u8],
    /// What stands behind it.
    pub after: &'a [u8],
}

impl<'a> Field<'a> {
    /// The field that the bytes begin with; nothing where they begin with none.
    pub fn first(bytes: &'a [u8]) -> Option<Field<'a>>
        ensures whole { is_some result ≡ field.whole bytes.now }
        ensures parts { IfSome result (IsFirst bytes.now) }
    {
        let (_, rest) = bytes.split_at_checked(3)?;
        let size = usize::from(u16::read(bytes, 1));
        let (content, after) = rest.split_at_checked(size)?;
        Some(Field {
            tag: bytes[0],
            content,
            after,
        })
    }

    /// The field of that tag that the bytes begin with; nothing where they begin with none.
    pub fn tagged(tag: u8, bytes: &'a [u8]) -> Option<Field<'a>>
        ensures tagged { is_some result ≡ field.tagged tag bytes.now }
        ensures parts { IfSome result (IsFirst bytes.now) }
    {
        Field::first(bytes).filter(|field| field.tag == tag)
    }

    /// How many bytes it takes: its tag, its length and its content.
    pub fn size(self) -> usize
        ensures { result ≡ 3 + length self.entry.content.now }
    {
        3 + self.content.len()
    }
}

// The total functions stay beside `Field`: a function that could not fail still cannot, and `Option` would be no plainer where
// nothing is a value too.
/// Whether the bytes begin with a field.
pub fn is_whole(bytes: &[u8]) -> bool
    ensures { result ≡ field.whole bytes.now }
{
    Field::first(bytes).is_some()
}

/// The content of the field that the bytes begin with; nothing where they begin with none.
pub fn content(bytes: &[u8]) -> &[u8]
    ensures bytes { result.now ≡ field.content bytes.now }
    ensures few { length result.now ≤ 65535 }
{
    Field::first(bytes).map_or(&[], |first| first.content)
}

/// What stands behind that field; nothing where there is none.
pub fn after(bytes: &[u8]) -> &[u8]
    ensures { result.now ≡ field.after bytes.now }
{
    Field::first(bytes).map_or(&[], |first| first.after)
}

/// How many bytes that field takes; 0 where there is none.
pub fn size(bytes: &[u8]) -> usize
    ensures value { result ≡ field.size bytes.now }
    ensures few { result ≤ length bytes.now }
{
    Field::first(bytes).map_or(0, |first| first.size())
}

/// Whether the bytes begin with a field of that tag.
pub fn is_tagged(tag: u8, bytes: &[u8]) -> bool
    ensures { result ≡ field.tagged tag bytes.now }
{
    Field::tagged(tag, bytes).is_some()
}

// Whether bytes begin with a row of a kind, in form.
ghost use Rattle.std.specs.Prelude.{◌≡◌, true, false, is_some, IfSome, MatchOption};
ghost use Rattle.fields.specs.Fields as field;
ghost use Rattle.fields.specs.Firsts.{IsFirst};
ghost use Rattle.layout.specs.Layout as layout;
ghost use Rattle.layout.specs.Reading as reading;

use crate::table::{TEXT, limits, numbers_fit};
use fields::reads::Field;
use refusals::Kind;

// The text of at most so many bytes that the bytes begin with.
fn first_text(most: u16, bytes: &[u8]) -> Option<Field<'_>>
    ensures text { is_some result ≡ field.text most bytes.now }
    ensures parts { IfSome result (IsFirst bytes.now) }
{
    Field::tagged(TEXT, bytes).filter(|text| text.content.len() <= usize::from(most))
}

// `form` passes texts too, and tells which fault and where; a test alone needs no place, so one for both would be no plainer.
// What stands behind texts of at most so many bytes each, one behind the other.
fn pass_texts<'a>(limits: &[u16], content: &'a [u8]) -> Option<&'a [u8]>
    ensures { MatchOption result (layout.texts limits.now content.now ≡ false) (λ rest. (layout.texts limits.now content.now ≡ true) × (rest.now ≡ layout.after_texts limits.now content.now)) }
{
    let mut rest = content;
    for most in limits {
        rest = first_text(*most, rest)?.after;
    }
    Some(rest)
}

// Whether the content of a field has the form of a row of a kind: the two go together here, and a struct would be taken apart at once.
fn has_form(kind: Kind, content: &[u8]) -> bool
    ensures { result ≡ layout.fits kind content.now }
{
    pass_texts(limits(kind), content).is_some_and(|rest| numbers_fit(kind, rest))
}

/// Whether the bytes begin with a row of a kind, in form.
pub fn is_row(kind: Kind, bytes: &[u8]) -> bool
    ensures { result ≡ reading.is_row kind bytes.now }
{
    Field::tagged(kind.number(), bytes).is_some_and(|row| has_form(kind, row.content))
}

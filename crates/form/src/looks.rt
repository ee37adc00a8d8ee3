// Texts and rows that are due: each function passes one, or gives its first fault.
ghost use Rattle.std.specs.Prelude.{◌≡◌, ◌+◌, IfOk};
ghost use Rattle.std.specs.Result.{result_err};
ghost use Rattle.fields.specs.Fields.{after, size};
ghost use Rattle.fields.specs.Firsts.{IsFirst};
ghost use Rattle.layout.specs.Layout.{after_texts};
ghost use Rattle.form.specs.Look as look;

use crate::places::Placed;
use fields::reads::Field;
use layout::table::{TEXT, kind_of, limits, numbers_fit};
use refusals::{ByteFault, Kind};

// A text of at most so many bytes, and what stands behind it.
fn due_text<'a>(most: u16, at: Placed<'a>) -> Result<Placed<'a>, ByteFault>
    ensures fault { result_err result ≡ look.text_fault most at.entry.place at.entry.bytes.now }
    ensures place { IfOk result (λ rest. rest.place ≡ at.entry.place + size at.entry.bytes.now) }
    ensures rest { IfOk result (λ rest. rest.bytes.now ≡ after at.entry.bytes.now) }
{
    let text = at.first()?;
    if text.tag != TEXT {
        return Err(ByteFault::Undue { place: at.place });
    }
    if text.content.len() > usize::from(most) {
        return Err(ByteFault::Misfits { place: at.place });
    }
    Ok(at.behind(text))
}

// The texts of a row, and what stands behind them.
fn pass_texts<'a>(limits: &[u16], content: Placed<'a>) -> Result<Placed<'a>, ByteFault>
    ensures fault { result_err result ≡ look.texts_fault limits.now content.entry.place content.entry.bytes.now }
    ensures rest { IfOk result (λ rest. rest.bytes.now ≡ after_texts limits.now content.entry.bytes.now) }
{
    let mut rest = content;
    for most in limits {
        rest = due_text(*most, rest)?;
    }
    Ok(rest)
}

// The content of a row of a kind that stands at a place.
fn check_content(kind: Kind, place: usize, content: Placed<'_>) -> Result<(), ByteFault>
    requires { content.place ≡ place + 3 }
    ensures { result_err result ≡ look.row_fault kind place content.entry.bytes.now }
{
    let numbers = pass_texts(limits(kind), content)?;
    if !numbers_fit(kind, numbers.bytes) {
        return Err(ByteFault::Misfits { place });
    }
    Ok(())
}

// A row, behind one of tag `least`.
pub(crate) fn due_row<'a>(least: u8, at: Placed<'a>) -> Result<Field<'a>, ByteFault>
    ensures fault { result_err result ≡ look.field_fault least at.entry.place at.entry.bytes.now }
    ensures row { IfOk result (IsFirst at.entry.bytes.now) }
{
    let row = at.first()?;
    let kind = kind_of(row.tag).ok_or(ByteFault::Undue { place: at.place })?;
    if row.tag < least {
        return Err(ByteFault::Undue { place: at.place });
    }
    check_content(kind, at.place, at.inside(row))?;
    Ok(row)
}

// Looking through bytes that should be one deposit.
ghost use Rattle.std.specs.Prelude.{◌≡◌, ◌+◌, ◌^◌, ◌<◌, length, IfOk};
ghost use Rattle.std.specs.Result.{result_err};
ghost use Rattle.fields.specs.Firsts.{IsFirst};
ghost use Rattle.form.specs.Look as look;
ghost use Rattle.form.specs.Words as words;

use crate::looks::due_row;
use crate::places::Placed;
use fields::reads::Field;
use layout::table::DEPOSIT;
use refusals::ByteFault;

// Rows to the end of the bytes.
fn check_rows(rows: Placed<'_>) -> Result<(), ByteFault>
    ensures { result_err result ≡ look.rows_fault (length rows.entry.bytes.now) 0 rows.entry.place rows.entry.bytes.now }
{
    let mut least = 0;
    let mut rest = rows;
    // each row says where the next begins, so nothing is counted and there is no list to go over
    while !rest.bytes.is_empty() {
        let row = due_row(least, rest)?;
        least = row.tag;
        rest = rest.behind(row);
    }
    Ok(())
}

// One deposit, whatever stands behind it.
fn due_deposit<'a>(at: Placed<'a>) -> Result<Field<'a>, ByteFault>
    ensures fault { result_err result ≡ look.deposit_fault at.entry.place at.entry.bytes.now }
    ensures deposit { IfOk result (IsFirst at.entry.bytes.now) }
{
    let deposit = at.first()?;
    if deposit.tag != DEPOSIT {
        return Err(ByteFault::Undue { place: at.place });
    }
    check_rows(at.inside(deposit))?;
    Ok(deposit)
}

// One deposit, and nothing behind it.
fn check_form(bytes: &[u8]) -> Result<(), ByteFault>
    ensures { result_err result ≡ look.form_fault bytes.now }
{
    let deposit = due_deposit(Placed::new(0, bytes))?;
    if !deposit.after.is_empty() {
        return Err(ByteFault::Undue {
            place: deposit.size(),
        });
    }
    Ok(())
}

// A fault is what is looked for: a `Result` with nothing in its `Ok` would be no plainer.
/// The first fault of one deposit that is due at a place, whatever stands behind it, or nothing.
pub fn deposit_fault(place: usize, bytes: &[u8]) -> Option<ByteFault>
    requires { place + length bytes.now < 2 ^ 64 }
    ensures value { result ≡ look.deposit_fault place bytes.now }
    ensures told { words.ToldAt place bytes.now result }
{
    due_deposit(Placed::new(place, bytes)).err()
}

/// The first fault of bytes that should be one deposit in form, or nothing.
pub fn form_fault(bytes: &[u8]) -> Option<ByteFault>
    ensures value { result ≡ look.form_fault bytes.now }
    ensures told { words.Told bytes.now result }
{
    check_form(bytes).err()
}

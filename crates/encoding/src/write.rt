// Writing a deposit: the rules first, then its length, then the room for it.
ghost use Rattle.std.specs.Prelude.{◌≡◌, length, take, drop, IfOk, Some};
ghost use Rattle.layout.specs.Reading.{decode};
ghost use Rattle.encoding.specs.Write.{write_answer, write_bytes};

use crate::faults::WriteFault;
use crate::parts::Part;
use crate::passing::PassingRows;
use deposit::carrier::Carrier;
use layout::table::DEPOSIT;

/// The greatest length of the content of a field.
pub const MOST_CONTENT: usize = 65_535;

// Bytes and a place: a slice from the place on would be no plainer, since the contract speaks of all bytes.
/// Writes the rows of a carrier as one deposit from place `at` on and tells its length in bytes. It refuses, and writes nothing:
/// 11 to 20 where the rows break a rule, then 21 where their content is above 65,535 bytes, then 32 where it does not fit. What was
/// written is read again as the same rows.
pub fn write<C: Carrier>(c: &C, out: &mut [u8], at: usize) -> Result<usize, WriteFault>
    ensures answer { result ≡ write_answer (C.Carrier.meaning c.now) (length out.old) at }
    ensures bytes { out.new ≡ write_bytes (C.Carrier.meaning c.now) out.old at result }
    ensures again { IfOk result (λ n. decode (take n (drop at out.new)) ≡ Some (C.Carrier.meaning c.now)) }
{
    let rows = PassingRows::new(c)?;
    let content = rows.length();
    if content > MOST_CONTENT {
        return Err(WriteFault::TooLong);
    }
    // the sum of place and length might be more than a number holds
    if out.len() < at || out.len() - at < 3 + content {
        return Err(WriteFault::NoRoom);
    }
    let head = DEPOSIT.then(content as u16).put(&mut out[at..]);
    let _end = rows.put(&mut out[at + head..]);
    Ok(3 + content)
}

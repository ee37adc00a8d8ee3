// A piece of a text.

/// A piece of a text.
#[derive(Clone, Copy, Debug, PartialEq, Eq)]
pub enum Piece<'a> {
    /// Bytes as they stand.
    Text(&'a [u8]),
    /// A number in decimal, with no zero in front.
    Number(usize),
    /// A date, as yyyy-mm-dd; three numbers, since texts are made below the calendar.
    Date { year: u16, month: u8, of_month: u8 },
    /// Each byte as a blank and two hexadecimal digits.
    Hex(&'a [u8]),
}

// Codes and names.
ghost use Rattle.std.specs.Prelude.{◌≡◌, Decides};
ghost use Rattle.ranges.specs.Texts.{visible, all_visible, is_name, is_code, Name, Code};

fn is_visible(byte: u8) -> bool
    ensures { result ≡ visible byte }
{
    (33..=126).contains(&byte)
}

fn all_visible(bytes: &[u8]) -> bool
    ensures { result ≡ all_visible bytes.now }
{
    bytes.iter().all(|byte| is_visible(*byte))
}

/// Whether a text has from 1 to `most` bytes.
pub fn is_name(bytes: &[u8], most: usize) -> bool
    ensures value { result ≡ is_name most bytes.now }
    ensures words { Decides result (Name most bytes.now) }
{
    (1..=most).contains(&bytes.len())
}

/// Whether a text is a code of at most `most` bytes: from 1 to that many, each from 33 to 126.
pub fn is_code(bytes: &[u8], most: usize) -> bool
    ensures value { result ≡ is_code most bytes.now }
    ensures words { Decides result (Code most bytes.now) }
{
    is_name(bytes, most) && all_visible(bytes)
}

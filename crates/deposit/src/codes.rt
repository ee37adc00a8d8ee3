// The one test of equal codes.
ghost use Rattle.std.specs.Prelude.{◌≡◌, Decides};
ghost use Rattle.deposit.specs.Codes.{same_code};

/// Whether two codes are equal. Nothing else compares codes.
pub fn equal_codes(a: &[u8], b: &[u8]) -> bool
    ensures value { result ≡ same_code a.now b.now }
    ensures equal { Decides result (a.now ≡ b.now) }
{
    a == b
}

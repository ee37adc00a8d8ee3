// Rule 20: no code of a kind stands twice.
ghost use Rattle.std.specs.Prelude.{◌≡◌};
ghost use Rattle.rules.specs.Tests.{code_at, codes_kept};

use deposit::carrier::Carrier;
use deposit::codes::equal_codes;
use refusals::Kind;

// The code of a row: of a closed enum of kinds, two have one.
fn code_at<C: Carrier>(c: &C, kind: Kind, row: usize) -> &[u8]
    ensures { result.now ≡ code_at (C.Carrier.meaning c.now) kind row }
{
    match kind {
        Kind::Stop => c.stop(row).code,
        Kind::Journey => c.journey(row).code,
        _ => &[],
    }
}

pub(crate) fn codes_kept<C: Carrier>(c: &C, kind: Kind, row: usize) -> bool
    ensures { result ≡ codes_kept (C.Carrier.meaning c.now) kind row }
{
    let code = code_at(c, kind, row);
    (0..row).all(|earlier| !equal_codes(code_at(c, kind, earlier), code))
}

// Rule 16: the holidays of a profile and the days of a special.
ghost use Rattle.std.specs.Prelude.{◌≡◌};
ghost use Rattle.rules.specs.Tests.{days_kept};

use deposit::carrier::Carrier;
use refusals::Kind;

fn masks_kept<C: Carrier>(c: &C, row: usize) -> bool
    ensures { result ≡ days_kept (C.Carrier.meaning c.now) Kind.Profile row }
{
    let profile = c.profile(row);
    profile.runs & profile.not_runs == 0
}

fn special_kept<C: Carrier>(c: &C, row: usize) -> bool
    ensures { result ≡ days_kept (C.Carrier.meaning c.now) Kind.Special row }
{
    let special = c.special(row);
    special.first <= special.last
}

// Two kinds of a closed enum, each with its test.
pub(crate) fn days_kept<C: Carrier>(c: &C, kind: Kind, row: usize) -> bool
    ensures { result ≡ days_kept (C.Carrier.meaning c.now) kind row }
{
    match kind {
        Kind::Profile => masks_kept(c, row),
        Kind::Special => special_kept(c, row),
        _ => true,
    }
}

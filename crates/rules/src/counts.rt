// Rule 11: how many rows of each kind there are.
ghost use Rattle.std.specs.Prelude.{◌≡◌};
ghost use Rattle.rules.specs.Tests.{count_kept};

use refusals::Kind;

// The most rows of a kind.
const MOST_ROWS: usize = 1_000;

// A match over the closed enum of kinds, which is the plainest table of them.
pub(crate) fn count_kept(kind: Kind, count: usize) -> bool
    ensures { result ≡ count_kept kind count }
{
    match kind {
        Kind::Head => count == 1,
        Kind::Line | Kind::Stop | Kind::Journey => (1..=MOST_ROWS).contains(&count),
        _ => count <= MOST_ROWS,
    }
}

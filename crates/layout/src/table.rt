// The layout of a row of each kind: the texts that it begins with, and the numbers behind them.
ghost use Rattle.std.specs.Prelude.{◌≡◌, length};
ghost use Rattle.layout.specs.Layout as layout;

use fields::numbers::Number;
use refusals::Kind;

/// The tag of a text in a row.
pub const TEXT: u8 = 32;

/// The tag of a deposit.
pub const DEPOSIT: u8 = 64;

/// All ones in two bytes: a missing number.
pub const MISSING_2: u16 = 0xffff;

/// All ones in four bytes: a missing number.
pub const MISSING_4: u32 = 0xffff_ffff;

// The two tables by kind are matches over a closed enum, which is their plainest form.
/// How long each text of a row may be.
pub fn limits(kind: Kind) -> &'static [u16]
    ensures { result.now ≡ layout.limits kind }
{
    match kind {
        Kind::Head | Kind::Journey => &[24],
        Kind::Line => &[24, 80, 80],
        Kind::Stop => &[12, 48],
        _ => &[],
    }
}

/// How many bytes the numbers of a row take.
pub fn width(kind: Kind) -> usize
    ensures { result ≡ layout.width kind }
{
    match kind {
        Kind::Head => 29,
        Kind::Line | Kind::Stop => 0,
        Kind::Profile => 7,
        Kind::Special => 9,
        Kind::Link => 18,
        Kind::Section => 4,
        Kind::Use => 2,
        Kind::Pattern => 5,
        Kind::Override => 14,
        Kind::Journey => 17,
    }
}

fn is_paired(day: u32, second: u32) -> bool
    ensures { result ≡ layout.paired day second }
{
    (day == MISSING_4) == (second == MISSING_4)
}

// Of the closed enum of kinds one has such a moment.
// Whether the modified moment of a head is given or missing as a whole.
fn is_moment_whole(kind: Kind, content: &[u8]) -> bool
    requires { length content.now ≡ layout.width kind }
    ensures { result ≡ layout.moments kind content.now }
{
    match kind {
        Kind::Head => is_paired(u32::read(content, 10), u32::read(content, 14)),
        _ => true,
    }
}

/// Whether the numbers behind the texts have their form.
pub fn numbers_fit(kind: Kind, content: &[u8]) -> bool
    ensures { result ≡ layout.numbers kind content.now }
{
    content.len() == width(kind) && is_moment_whole(kind, content)
}

// A tag of no kind is no refusal to who looks bytes through, so the conversion's error goes.
/// The kind whose number a tag is.
pub fn kind_of(tag: u8) -> Option<Kind>
    ensures { result ≡ layout.kind_of tag }
{
    Kind::try_from(tag).ok()
}

// A place along the links of a pattern. It holds no reference, so it can be kept while its carrier is lent elsewhere.
ghost use Rattle.std.specs.Prelude.{MatchOption};
ghost use Rattle.patterns.specs.Links.{Closed, Opened};

use crate::links::is_open;

// A span is told how many rows the list has: it holds no reference, so that it can be kept while its carrier is lent elsewhere.
/// The rows of a list yet to come: at most `left` of them, from row `at` on. What lies past the end of the list is not there.
#[derive(Clone, Copy, Debug, Default, PartialEq, Eq)]
pub struct Span {
    pub at: usize,
    pub left: usize,
}

impl Span {
    /// The next row of a list with so many, which the span then lies behind; nothing when there is none.
    pub fn next(&mut self, count: usize) -> Option<usize>
        ensures row { MatchOption result (Closed self.old self.new count) (Opened self.old self.new count) }
    {
        if !is_open(*self, count) {
            return None;
        }
        let at = self.at;
        self.at += 1;
        self.left -= 1;
        Some(at)
    }
}

/// The links yet to come of the section that was begun, and the uses of sections yet to come.
#[derive(Clone, Copy, Debug, Default, PartialEq, Eq)]
pub struct Cursor {
    pub links: Span,
    pub uses: Span,
}

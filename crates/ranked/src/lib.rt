// Rows in rank order, in a slice that its owner lends: written once for every row that has a rank.
#![tactic(auto)]

ghost use Rattle.std.specs.Prelude.{◌≡◌, Bool, true, ◌||◌, ◌∷◌, ◌≤◌, length, take, IfOk};
ghost use Rattle.std.specs.List.Sorted.{IsPermutation};
ghost use Rattle.ranked.specs.Placing.{Inserted, in_order, later_behind, place};

use refusals::Refusal;

/// A row that has a rank among its like. A rank may read less of a row than `==` does, so it is no `Ord`.
pub trait Rank {
    ghost no_later: { Self → Self → Bool };

    /// Whether this row may stand before `other`.
    fn ranks_no_later(&self, other: &Self) -> bool
        ensures { result ≡ no_later self.now other.now };

    ghost total: { (x y : Self) → (no_later x y || no_later y x) ≡ true };

    ghost transitive: { (x y z : Self) → no_later x y ≡ true → no_later y z ≡ true → no_later x z ≡ true };
}

/// Puts `row` among the first `count` rows, behind every one that ranks no later, and tells how many there are then.
/// A list with no row behind the first `count` refuses with 44.
// A list with a count beside it and no `Vec`: lists are lent, since the calls of the archive allocate nothing.
pub fn insert<R: Rank + Copy>(rows: &mut [R], count: usize, row: R) -> Result<usize, Refusal>
    ensures rows { Inserted R.no_later row count rows.old rows.new result }
    ensures order { in_order R.no_later (take count rows.old) ≡ true → IfOk result (λ n. in_order R.no_later (take n rows.new) ≡ true) }
    ensures holds { IfOk result (λ n. IsPermutation (row ∷ take count rows.old) (take n rows.new)) }
    ensures behind { IfOk result (λ n. later_behind R.no_later row (place R.no_later row (take count rows.old)) (take n rows.new) ≡ true) }
{
    if count >= rows.len() {
        return Err(Refusal::TooShort);
    }
    let at = place(&rows[..count], &row);
    rows[count] = row;
    // a row that goes behind all others is at its place already
    if at == count {
        return Ok(count + 1);
    }
    rows[at..=count].rotate_right(1);
    Ok(count + 1)
}

// How many rows stand before the place of a new row. Tried `map_or` for the match: the proof did not close.
fn place<R: Rank>(rows: &[R], row: &R) -> usize
    ensures value { result ≡ place R.no_later row.now rows.now }
    ensures within { result ≤ length rows.now }
{
    match rows.iter().rposition(|before| before.ranks_no_later(row)) {
        Some(last) => last + 1,
        None => 0,
    }
}

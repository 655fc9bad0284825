// Allowances by the point formula: each row's bounds from its walk, and of the bounds on a row the smallest. Document 01, "Scheduling points".
#![tactic(auto)]

ghost use Rattle.std.specs.Prelude.{◌≡◌, ℕ, ◌≤◌, ◌<◌, pos, length, get_or};
ghost use Rattle.theory.specs.Gather.{All};
ghost use Rattle.theory.specs.Moved.{LoweredTo};
ghost use Rattle.theory.specs.Response.{AllMeet};
ghost use Rattle.theory.specs.Points.{IsPointAllowance};
ghost use Rattle.rows.specs.Values.{rows_in};
ghost use Rattle.points.specs.Bounds.{BestOfWalkIn, IsOn, IsSmall};

use climbs::RankedSet;
use demands::RankedRow;

// The best quotients of a row's walk from its deadline: on each of the rows above it, and then on the row itself.
fn bounds_of(row: &RankedRow) -> [i64; 25]
    requires { 1 ≤ row.now.limit }
    ensures best_of_walk { BestOfWalkIn row.now result }
    ensures result_len { length result ≡ 25 }
{
    // Below every quotient, and near enough to 0 for the products of the walk.
    let mut best = [-50_000_000i64; 25];
    walks::walk_on(row.c.len(), row.limit, 0, row, &mut best);
    best
}

// Lowers the allowance of each row that row k's bounds are on: its rivals, and then itself.
fn lower(allowed: &mut [i64], best: &[i64], places: &[usize], k: usize)
    requires places_in_bounds { length places.now < length best.now }
    requires all { All (λ h. h < length allowed.old) places.now × (k < length allowed.old) }
    ensures { (i : ℕ) → LoweredTo (λ j. get_or best.now j (pos 0)) (IsOn places.now k i) (get_or allowed.old i (pos 0)) (get_or allowed.new i (pos 0)) }
{
    for (&i, &bound) in places.iter().zip(best) {
        allowed[i] = allowed[i].min(bound);
    }
    allowed[k] = allowed[k].min(best[places.len()]);
}

// The point allowance of each row.
pub fn point_allowances(set: &RankedSet) -> [i64; 24]
    ensures by_index { (i : ℕ) → i < length set.now.rows.c.now → IsPointAllowance (rows_in set.now.rows) i (get_or result i (pos 0)) }
    ensures result_len { length result ≡ 24 }
{
    let by_rank = set.by_rank();
    let mut allowed = [i64::MAX; 24];
    for rank in 0..by_rank.c.len() {
        let best = bounds_of(&climbs::row_at(&by_rank, rank));
        lower(&mut allowed, &best, &set.order[..rank], set.order[rank]);
    }
    allowed
}

// Allowances that are no negative numbers, as 32-bit numbers.
fn as_numbers(allowed: &[i64]) -> [u32; 24]
    requires allowed_len_bound { length allowed.now ≤ 24 }
    requires by_index { (i : ℕ) → i < length allowed.now → IsSmall (get_or allowed.now i (pos 0)) }
    ensures by_index_2 { (i : ℕ) → i < length allowed.now → pos (get_or result i 0) ≡ get_or allowed.now i (pos 0) }
    ensures result_len { length result ≡ 24 }
{
    let mut numbers = [0u32; 24];
    for (i, &allowance) in allowed.iter().enumerate() {
        numbers[i] = allowance as u32;
    }
    numbers
}

// The point allowance of each row of a set that is on time, where it is no negative number.
pub fn allowances_by_points(set: &RankedSet) -> [u32; 24]
    requires { AllMeet (rows_in set.now.rows) }
    ensures by_index { (i : ℕ) → i < length set.now.rows.c.now → IsPointAllowance (rows_in set.now.rows) i (pos (get_or result i 0)) }
    ensures result_len { length result ≡ 24 }
{
    let signed = point_allowances(set);
    as_numbers(&signed[..set.rows.c.len()])
}

// The sides of a sheet's swaps: whether they are one load, and whether they have one grade.
#![tactic(auto)]

ghost use Rattle.std.specs.Prelude.{◌≡◌, ◌≤◌, ◌<◌, ◌*◌, ◌+◌, length, IfSome, unwrap_or, Ok};
ghost use Rattle.terms.specs.Decides.{Decides};
ghost use Rattle.terms.specs.Limits.{KindsFine};
ghost use Rattle.terms.specs.Flat.{swap_at};
ghost use Rattle.terms.specs.Outcome.{Outcome};
ghost use Rattle.sides.specs.Fine.{Unequal, Even, LowestBad, side_tests};

use terms::{Refusal, Refused};

// Whether the sides of swap k are not one load.
pub fn unequal(n: usize, swaps: &[u16], k: usize) -> bool
    requires { k * (2 * n) + 2 * n ≤ length swaps.now }
    ensures { Decides (Unequal (swap_at n swaps.now k)) result }
{
    loads::left_of(n, swaps, k) != loads::right_of(n, swaps, k)
}

// Whether the sides of swap k have one grade.
pub fn even(sizes: &[u16], swaps: &[u16], k: usize) -> bool
    requires { KindsFine (length sizes.now) × (k * (2 * length sizes.now) + 2 * length sizes.now ≤ length swaps.now) }
    ensures { Decides (Even sizes.now (swap_at (length sizes.now) swaps.now k)) result }
{
    let swap = loads::row_of(sizes.len(), swaps, k);
    loads::grade_of(sizes, swap.head) == loads::grade_of(sizes, swap.tail)
}

// The lowest swap of the first `count` (`LowestBad` is said of any count) whose sides are one load or differ in grade.
pub fn first_bad(sizes: &[u16], swaps: &[u16], count: usize) -> Option<usize>
    requires { KindsFine (length sizes.now) × (count * (2 * length sizes.now) ≤ length swaps.now) }
    ensures first { LowestBad (length sizes.now) sizes.now swaps.now count (unwrap_or result count) }
    ensures in_sheet { IfSome result (λ k. k < count) }
{
    let n = sizes.len();
    (0..count).find(|&k| !unequal(n, swaps, k) || !even(sizes, swaps, k))
}

// The first test of swap k that fails, as the refusal at a place: the swap's number, or its line in a text.
pub fn tested(sizes: &[u16], swaps: &[u16], k: usize, place: usize) -> Result<(), Refused>
    requires { KindsFine (length sizes.now) × (k * (2 * length sizes.now) + 2 * length sizes.now ≤ length swaps.now) }
    ensures { Outcome (λ r. r ≡ Ok tt) (side_tests sizes.now (swap_at (length sizes.now) swaps.now k) place) result }
{
    if !unequal(sizes.len(), swaps, k) {
        return Err(Refusal::SameSides.at(place));
    }
    if !even(sizes, swaps, k) {
        return Err(Refusal::UnequalGrades.at(place));
    }
    Ok(())
}

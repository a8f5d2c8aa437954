// The cost order on lent loads; costs and two loads are what it is about, and a struct of them would be made only to be taken apart.
// A change of the order changes this crate, `terms/specs/Order.antt` and `laws/specs/Order.antt`.
#![tactic(auto)]

ghost use Rattle.std.specs.Prelude.{◌≡◌, ◌≤◌, length};
ghost use Rattle.terms.specs.Decides.{Decides};
ghost use Rattle.terms.specs.Limits.{All, CostFine, most_kinds};
ghost use Rattle.terms.specs.Order.{cost, Lex, Before};
ghost use Rattle.compare.specs.Earlier.{Fine, Earlier};

use std::cmp::Ordering;
use terms::Kit;

// Wide enough, and signed, for the cost of any load: 12 times 65,535 times 2,147,483,648 either way.
pub type Cost = i64;

// The cost of x: the sum of count times cost, signed.
pub fn cost_of(costs: &[i32], x: &[u16]) -> Cost
    requires { (length costs.now ≡ length x.now) × (length x.now ≤ most_kinds) }
    ensures { result ≡ cost costs.now x.now }
{
    loads::measure_of(costs, x)
}

// Whether x has the smaller count at the first kind where the two differ. By a loop and not `<`: where costs tie, testing the rows of
// a table took half as long again with `<` of two slices.
pub fn lex_less(x: &[u16], y: &[u16]) -> bool
    requires { length x.now ≡ length y.now }
    ensures { Decides (Lex x.now y.now) result }
{
    for (a, b) in x.iter().zip(y) {
        if a < b {
            return true;
        }
        if b < a {
            return false;
        }
    }
    false
}

// Whether x comes before y in the cost order.
pub fn comes_before(costs: &[i32], x: &[u16], y: &[u16]) -> bool
    requires { (length costs.now ≡ length x.now) × (length x.now ≡ length y.now) × (length x.now ≤ most_kinds) }
    ensures { Decides (Before costs.now x.now y.now) result }
{
    match cost_of(costs, x).cmp(&cost_of(costs, y)) {
        Ordering::Less => true,
        Ordering::Equal => lex_less(x, y),
        Ordering::Greater => false,
    }
}

// Whether every cost is in range.
pub fn costs_fine(costs: &[i32]) -> bool
    ensures { Decides (All CostFine costs.now) result }
{
    costs
        .iter()
        .all(|cost| (-Kit::COST..=Kit::COST).contains(cost))
}

// Whether two loads can be compared.
pub fn pair_fine(n: usize, costs: &[i32], x: &[u16], y: &[u16]) -> bool
    ensures { Decides (Fine n costs.now x.now y.now) result }
{
    loads::in_range(n, Kit::KINDS)
        && costs.len() == n
        && x.len() == n
        && y.len() == n
        && costs_fine(costs)
}

// The load that comes first in the cost order, as the part lent; equal loads give the first, and refused input its empty part. An
// empty part and no None: `Earlier` says it so.
pub fn earlier<'a>(n: usize, costs: &[i32], x: &'a [u16], y: &'a [u16]) -> &'a [u16]
    ensures { Earlier n costs.now x.entry y.entry result }
{
    if !pair_fine(n, costs, x, y) {
        return &x[0..0];
    }
    if comes_before(costs, y, x) {
        return y;
    }
    x
}

// Completion: the finished table of a kit and its sheet.
#![tactic(auto)]

ghost use Rattle.std.specs.Prelude.{◌≡◌, ◌≤◌, length, Ok};
ghost use Rattle.terms.specs.Decides.{Decides};
ghost use Rattle.terms.specs.Load.{grade};
ghost use Rattle.terms.specs.Limits.{KindsFine, BoundFine, most_bound, most_swaps, most_rows};
ghost use Rattle.terms.specs.Flat.{numbered, rows_lent};
ghost use Rattle.terms.specs.Outcome.{Outcome};
ghost use Rattle.loads.specs.Lent.{Lent};
ghost use Rattle.rack.specs.Rows.{as_rows};
ghost use Rattle.growth.specs.State.{stamp};
ghost use Rattle.complete.specs.Grown.{stamped_at, Grown};
ghost use Rattle.complete.specs.Passed.{Fit};
ghost use Rattle.complete.specs.Call.{Lengths, input_tests, Finishing, Completing};

use arrayvec::ArrayVec;
use grades::Stamped;
use rack::Table;
use terms::{Kit, Refusal, Refused};

// A kit and its sheet, as they are lent. Plain fields and no invariant: C may fill them with anything, and `tested` is what tests them.
#[derive(Clone, Copy)]
pub struct Sheet<'a> {
    pub kit: Kit,
    pub sizes: &'a [u16],
    pub costs: &'a [i32],
    pub swaps: &'a [u16],
}

impl Sheet<'_> {
    // Whether what is lent has the lengths that the number of kinds asks.
    pub fn lengths_fine(&self, rules: &[u16]) -> bool
        requires { KindsFine self.now.kit.kinds }
        ensures { Decides (Lengths self.now.kit.kinds self.now.sizes.now self.now.costs.now self.now.swaps.now rules.now) result }
    {
        let n = self.kit.kinds;
        self.sizes.len() == n
            && self.costs.len() == n
            && loads::lent(n, Kit::SWAPS, self.swaps)
            && loads::lent(n, Kit::ROWS, rules)
    }

    // The first test of what is lent that fails, as the refusal. It only reads.
    #[tactic(auto, using(loads::specs::KitTests::kit_passed, loads::specs::KitTests::kit_stops))]
    pub fn tested(&self, rules: &[u16]) -> Result<(), Refused>
        ensures { Outcome (λ o. o.0 ≡ Ok tt) (input_tests self.now.kit.kinds self.now.kit.bound self.now.sizes.now self.now.costs.now self.now.swaps.now rules.now) (result, rules.now) }
    {
        loads::kit_tested(self.kit, 0)?;
        if !self.lengths_fine(rules) {
            return Err(Refusal::Length.at(0));
        }
        if !loads::sizes_fine(self.sizes) {
            return Err(Refusal::Size.at(0));
        }
        if !compare::costs_fine(self.costs) {
            return Err(Refusal::Cost.at(0));
        }
        let count = self.swaps.len() / (2 * self.kit.kinds);
        match sides::first_bad(self.sizes, self.swaps, count) {
            Some(bad) => sides::tested(self.sizes, self.swaps, bad, bad),
            None => Ok(()),
        }
    }

    // The sheet's swaps as swaps of 12 kinds with their stamps, for the sizes of the 12 kinds. Pushed into a vector that is lent: an
    // answered one was cleared once more and copied twice, 9.6 KB in all.
    fn stamp_all(&self, sizes: &[u16; Kit::KINDS], sheet: &mut ArrayVec<Stamped, { Kit::SWAPS }>)
        requires { KindsFine self.now.kit.kinds × BoundFine self.now.kit.bound × Lent self.now.kit.kinds most_swaps self.now.swaps.now }
        ensures { sheet.new.items ≡ numbered (stamped_at self.now.kit.kinds self.now.kit.bound sizes.now self.now.swaps.now) 0 (rows_lent self.now.kit.kinds self.now.swaps.now) }
    {
        let Kit { kinds: n, bound } = self.kit;
        sheet.clear();
        for swap in self.swaps.chunks_exact(2 * n) {
            let (left, right) = swap.split_at(n);
            let left = padding::widen(left);
            let right = padding::widen(right);
            let stamp = stamp_of(bound, sizes, &left);
            sheet.push(Stamped { left, right, stamp });
        }
    }

    // The kit completed as one of 12 kinds, by weight, in an empty table: it then has more rows than the room where there is none for them.
    fn grow(&self, table: &mut Table, room: usize)
        requires { Fit self.now.kit.kinds self.now.kit.bound self.now.sizes.now self.now.costs.now self.now.swaps.now × (room ≤ most_rows) }
        ensures { Grown self.now.kit.kinds self.now.kit.bound self.now.sizes.now self.now.costs.now self.now.swaps.now room (as_rows table.new.items) }
    {
        let sizes = padding::widen_sizes(self.sizes);
        let weights = padding::weigh_all(self.sizes, self.costs);
        let mut swaps = ArrayVec::new();
        self.stamp_all(&sizes, &mut swaps);
        grades::grow(&sizes, &weights, self.kit.bound, &swaps, table, room);
    }

    // The finished table in the rule table, or no room for it and 0 everywhere.
    fn finish(&self, rules: &mut [u16]) -> Result<usize, Refused>
        requires { Fit self.now.kit.kinds self.now.kit.bound self.now.sizes.now self.now.costs.now self.now.swaps.now × Lent self.now.kit.kinds most_rows rules.old }
        ensures { Finishing self.now.kit.kinds self.now.kit.bound self.now.sizes.now self.now.costs.now self.now.swaps.now rules.old (result, rules.new) }
    {
        let n = self.kit.kinds;
        let room = rules.len() / (2 * n);
        let mut table = Table::new();
        self.grow(&mut table, room);
        rules.fill(0);
        let rows = table.len();
        if room < rows {
            return Err(Refusal::NoRoom.at(0));
        }
        padding::lay_rows(n, &table, rules);
        Ok(rows)
    }
}

// The stamp of a load of 12 kinds: its grade where that is within the bound, else 0, at which nothing is due. A number and no Option:
// growth's `stamp` says it so. The cast loses nothing: a bound is at most 1,000.
fn stamp_of(bound: usize, sizes: &[u16; Kit::KINDS], x: &[u16; Kit::KINDS]) -> u16
    requires { bound ≤ most_bound }
    ensures { result ≡ stamp bound (grade sizes.now x.now) }
{
    let grade = loads::grade_of(sizes, x);
    if grade <= bound { grade as u16 } else { 0 }
}

// Complete: the number of rows of the finished table, which the rule table then holds; refused for room it is 0, and refused otherwise as
// it was lent.
pub fn complete(
    kit: Kit,
    sizes: &[u16],
    costs: &[i32],
    swaps: &[u16],
    rules: &mut [u16],
) -> Result<usize, Refused>
    ensures { Completing kit.kinds kit.bound sizes.now costs.now swaps.now rules.old (result, rules.new) }
{
    let sheet = Sheet {
        kit,
        sizes,
        costs,
        swaps,
    };
    sheet.tested(rules)?;
    sheet.finish(rules)
}

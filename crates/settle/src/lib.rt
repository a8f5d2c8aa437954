// Settling a load by a rule table.
#![tactic(auto)]

ghost use Rattle.std.specs.Prelude.{◌≡◌, ◌≤◌, ◌<◌, ◌*◌, ◌+◌, length, Ok, IfSome, unwrap_or};
ghost use Rattle.terms.specs.Decides.{Decides};
ghost use Rattle.terms.specs.Load.{grade};
ghost use Rattle.terms.specs.Limits.{KindsFine};
ghost use Rattle.terms.specs.Flat.{row_at, table_of};
ghost use Rattle.terms.specs.Settling.{Proper, Settles};
ghost use Rattle.terms.specs.Outcome.{Outcome};
ghost use Rattle.settle.specs.Ready.{Ready, LowestBad};
ghost use Rattle.settle.specs.Call.{Lengths, tests, Settling};

use terms::{Kit, Refusal, Refused};

// A kit with its rule table, as they are lent: the first `rows` rows of `rules` are in use. Plain fields and no invariant: C may fill
// them with anything, and `tested` is what tests them.
#[derive(Clone, Copy)]
pub struct Table<'a> {
    pub kit: Kit,
    pub sizes: &'a [u16],
    pub costs: &'a [i32],
    pub rules: &'a [u16],
    pub rows: usize,
}

impl Table<'_> {
    // Whether what is lent has the lengths that the number of kinds asks.
    pub fn lengths_fine(&self, load: &[u16]) -> bool
        requires { KindsFine self.now.kit.kinds }
        ensures { Decides (Lengths self.now.kit.kinds self.now.sizes.now self.now.costs.now self.now.rules.now self.now.rows load.now) result }
    {
        let n = self.kit.kinds;
        self.sizes.len() == n
            && self.costs.len() == n
            && load.len() == n
            && loads::lent(n, Kit::ROWS, self.rules)
            && self.rows <= self.rules.len() / (2 * n)
    }

    // Whether row r is proper. Its sides are handed on as parts from the middle of the table.
    pub fn row_proper(&self, r: usize) -> bool
        requires { KindsFine self.now.kit.kinds × (r * (2 * self.now.kit.kinds) + 2 * self.now.kit.kinds ≤ length self.now.rules.now) × (length self.now.sizes.now ≡ self.now.kit.kinds) × (length self.now.costs.now ≡ self.now.kit.kinds) }
        ensures { Decides (Proper self.now.kit.bound self.now.sizes.now self.now.costs.now (row_at self.now.kit.kinds self.now.rules.now r)) result }
    {
        let row = loads::row_of(self.kit.kinds, self.rules, r);
        let grade = loads::grade_of(self.sizes, row.head);
        grade == loads::grade_of(self.sizes, row.tail)
            && grade <= self.kit.bound
            && compare::comes_before(self.costs, row.tail, row.head)
    }

    // The lowest row in use that is not proper.
    pub fn first_bad(&self) -> Option<usize>
        requires { KindsFine self.now.kit.kinds × (self.now.rows * (2 * self.now.kit.kinds) ≤ length self.now.rules.now) × (length self.now.sizes.now ≡ self.now.kit.kinds) × (length self.now.costs.now ≡ self.now.kit.kinds) }
        ensures first { LowestBad self.now.kit.kinds self.now.kit.bound self.now.sizes.now self.now.costs.now self.now.rules.now self.now.rows (unwrap_or result self.now.rows) }
        ensures in_table { IfSome result (λ r. r < self.now.rows) }
    {
        (0..self.rows).find(|&r| !self.row_proper(r))
    }

    // The first test that fails, as the refusal. It only reads.
    #[tactic(auto, using(loads::specs::KitTests::kit_passed, loads::specs::KitTests::kit_stops))]
    pub fn tested(&self, load: &[u16]) -> Result<(), Refused>
        ensures { Outcome (λ o. o.0 ≡ Ok tt) (tests self.now.kit.kinds self.now.kit.bound self.now.sizes.now self.now.costs.now self.now.rules.now self.now.rows load.now) (result, load.now) }
    {
        loads::kit_tested(self.kit, 0)?;
        if !self.lengths_fine(load) {
            return Err(Refusal::Length.at(0));
        }
        if !loads::sizes_fine(self.sizes) {
            return Err(Refusal::Size.at(0));
        }
        if !compare::costs_fine(self.costs) {
            return Err(Refusal::Cost.at(0));
        }
        if let Some(bad) = self.first_bad() {
            return Err(Refusal::BadRow.at(bad));
        }
        if self.kit.bound < loads::grade_of(self.sizes, load) {
            return Err(Refusal::OverBound.at(0));
        }
        Ok(())
    }

    // While a row's head fits in the load, the first such row is applied, as often at once as single steps would apply it. Every row is
    // proper.
    pub fn settle_proper(&self, load: &mut [u16])
        requires ready { Ready self.now.kit.kinds self.now.kit.bound self.now.sizes.now self.now.costs.now self.now.rules.now self.now.rows }
        requires load_fine { (length load.old ≡ self.now.kit.kinds) × (grade self.now.sizes.now load.old ≤ self.now.kit.bound) }
        ensures { Settles (table_of self.now.kit.kinds self.now.rules.now self.now.rows) load.old load.new }
    {
        while let Some(r) = loads::first_fit(self.kit.kinds, self.rules, self.rows, load) {
            let row = loads::row_of(self.kit.kinds, self.rules, r);
            let most = leap::rounds_of(&row, load);
            let more = leap::calm(self.kit.kinds, self.rules, r, &row, load, most);
            leap::leap_in(more, &row, load);
        }
    }
}

// Settle: the load at exit is the end of settling; refused, it is as it was lent.
#[tactic(auto, using(crate::specs::Passed::settle_stops, crate::specs::Passed::settle_passed, crate::specs::Passed::settle_ends))]
pub fn settle(
    kit: Kit,
    sizes: &[u16],
    costs: &[i32],
    rules: &[u16],
    rows: usize,
    load: &mut [u16],
) -> Result<(), Refused>
    ensures { Settling kit.kinds kit.bound sizes.now costs.now rules.now rows load.old (result, load.new) }
{
    let table = Table {
        kit,
        sizes,
        costs,
        rules,
        rows,
    };
    table.tested(load)?;
    table.settle_proper(load);
    Ok(())
}

// The lines of the worked table that complete reaches, each with the whole rule table at exit. Every number lent is 7.
// It writes by tell::Stdout, not println!, so it goes on past a failed write, ends with 0 and rests on `write` alone.
#![tactic(auto)]

use complete::Sheet;
use std::fmt::Write;
use tell::{Counts, Stdout};
use terms::Kit;

// The answer and the rule table at exit, as in the table.
fn show(label: &str, sheet: Sheet, rules: &mut [u16]) {
    let answer = complete::complete(sheet.kit, sheet.sizes, sheet.costs, sheet.swaps, rules);
    let rules = Counts(rules);
    let _ = match answer {
        Ok(rows) => writeln!(Stdout, "{label} rows {rows}:{rules}"),
        Err(refused) => writeln!(
            Stdout,
            "{label} refused {} at {}:{rules}",
            u32::from(refused.why),
            refused.place
        ),
    };
}

const KIT_A: Sheet = Sheet {
    kit: Kit {
        kinds: 4,
        bound: 12,
    },
    sizes: &[1, 2, 3, 4],
    costs: &[0, 1, 0, 0],
    swaps: &[1, 0, 1, 0, 0, 2, 0, 0, 0, 1, 0, 1, 0, 0, 2, 0],
};

const KIT_T: Sheet = Sheet {
    kit: Kit {
        kinds: 3,
        bound: 20,
    },
    sizes: &[5, 2, 2],
    costs: &[0, 0, 0],
    swaps: &[1, 1, 0, 1, 0, 1],
};

const KIT_N: Sheet = Sheet {
    kit: Kit { kinds: 2, bound: 5 },
    sizes: &[1, 1],
    costs: &[-3, -2],
    swaps: &[1, 0, 0, 1],
};

// Kit A with a lower bound.
fn kit_a_to(bound: usize) -> Sheet<'static> {
    let kit = Kit::of(4, bound);
    Sheet { kit, ..KIT_A }
}

fn main() {
    show("P1", KIT_A, &mut [7; 32]);
    show("P2", kit_a_to(11), &mut [7; 24]);
    show("P2", kit_a_to(11), &mut [7; 40]);
    show("P3", KIT_A, &mut [7; 24]);
    show("P4", kit_a_to(3), &mut []);
    show("P5", kit_a_to(4), &mut []);
    show("T", KIT_T, &mut [7; 12]);
    show("N", KIT_N, &mut [7; 8]);
    for swaps in [[1, 1, 1, 1], [1, 0, 0, 0]] {
        let swaps = &swaps;
        show("13", Sheet { swaps, ..KIT_N }, &mut [7; 8]);
    }
    let swaps = &[1, 0, 0, 1, 1, 0, 0, 0];
    show("13", Sheet { swaps, ..KIT_N }, &mut [7; 8]);
    for cost in [1_000_000, 1_000_001] {
        let costs = &[cost, -2];
        show("14", Sheet { costs, ..KIT_N }, &mut [7; 8]);
    }
}

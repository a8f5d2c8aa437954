// The lines of the worked table that settle and earlier-of-two reach.
// It writes by tell::Stdout, not println!, so it goes on past a failed write, ends with 0 and rests on `write` alone.
#![tactic(auto)]

use settle::Table;
use std::fmt::Write;
use tell::{Counts, Number, Stdout};
use terms::Kit;

// The answer and the load, as in the table.
fn show(label: &str, table: Table, load: &mut [u16]) {
    let answer = settle::settle(
        table.kit,
        table.sizes,
        table.costs,
        table.rules,
        table.rows,
        load,
    );
    let load = Counts(load);
    let _ = match answer {
        Ok(()) => writeln!(Stdout, "{label} done{load}"),
        Err(refused) => {
            let why = Number(u32::from(refused.why));
            writeln!(Stdout, "{label} refused {why}:{load}")
        }
    };
}

// Kit A with its finished table.
const KIT_A: Table = Table {
    kit: Kit {
        kinds: 4,
        bound: 12,
    },
    sizes: &[1, 2, 3, 4],
    costs: &[0, 1, 0, 0],
    rules: &[
        0, 2, 0, 0, 1, 0, 1, 0, 0, 1, 0, 1, 0, 0, 2, 0, 0, 1, 2, 0, 1, 0, 1, 1, 1, 0, 1, 2, 0, 0,
        4, 0,
    ],
    rows: 4,
};

// Kit T with its finished table.
const KIT_T: Table = Table {
    kit: Kit {
        kinds: 3,
        bound: 20,
    },
    sizes: &[5, 2, 2],
    costs: &[0, 0, 0],
    rules: &[1, 1, 0, 1, 0, 1],
    rows: 1,
};

// Kit N with its finished table, of one row.
const KIT_N: Table = Table {
    kit: Kit { kinds: 2, bound: 5 },
    sizes: &[1, 1],
    costs: &[-3, -2],
    rules: &[0, 1, 1, 0],
    rows: 1,
};

// Which of two loads comes first; only y may have no part of kind 1.
fn show_earlier(label: &str, costs: &[i32], x: &[u16], y: &[u16]) {
    let first = match compare::earlier(12, costs, x, y) {
        [] => " empty\n",
        [0, ..] => " second\n",
        _ => " first\n",
    };
    let _ = write!(Stdout, "{label}{first}");
}

// Twelve kinds of 65,535 parts against nine, all at one cost: a sum of 32 bits would turn the order about.
fn far(label: &str, cost: i32) {
    let x = [65_535u16; 12];
    let mut y = x;
    y[..3].fill(0);
    show_earlier(label, &[cost; 12], &x, &y);
}

fn main() {
    show("P6", KIT_A, &mut [0, 2, 0, 1]);
    show("P7", KIT_A, &mut [1, 0, 0, 1]);
    show("P7", KIT_A, &mut [0, 1, 1, 0]);
    show("P8", KIT_A, &mut [1, 0, 0, 2]);
    show("P8", KIT_A, &mut [0, 0, 3, 0]);
    show("P9", KIT_T, &mut [2, 3, 0]);
    show("P10", KIT_T, &mut [0, 3, 0]);
    show("P11", KIT_N, &mut [2, 3]);
    let kit = Kit::of(2, 4);
    show("P11", Table { kit, ..KIT_N }, &mut [2, 3]);
    show("P12", KIT_A, &mut [0, 0, 0, 0]);
    show("P12", KIT_T, &mut [0, 0, 0]);
    show("P12", KIT_N, &mut [0, 0]);
    for rules in [[1, 1, 1, 1], [1, 0, 0, 0]] {
        let rules = &rules;
        show("13", Table { rules, ..KIT_N }, &mut [2, 3]);
    }
    for cost in [-1_000_000, -1_000_001, 1_000_001] {
        let costs = &[cost, -2];
        show("14", Table { costs, ..KIT_N }, &mut [2, 3]);
    }
    for cost in [1_000_000, -1_000_000, 1_000_001, 0] {
        far("14", cost);
    }
}

// A kit of n kinds as one of 12, with weights in the place of costs; proofs/Padded.antt says that its finished table is the same.
#![tactic(auto)]

ghost use Rattle.std.specs.Prelude.{◌≡◌, ◌++◌, map, ◌+◌, ◌-◌, ◌*◌, ◌≤◌, length, replicate};
ghost use Rattle.terms.specs.Load.{zeros};
ghost use Rattle.terms.specs.Limits.{SizeFine, CostFine, most_kinds};
ghost use Rattle.terms.specs.Flat.{filled, table_of, numbered, swap_at};
ghost use Rattle.rack.specs.Rows.{as_row, as_rows};
ghost use Rattle.padding.specs.Resize.{sides_over, row_over};
ghost use Rattle.padding.specs.Widen.{FineKit, weight, weights, widen, widen_sizes, widen_swap, widen_row, resize_row};

use rack::Row;
use terms::Kit;

// What a part weighs. The cast loses nothing: a weight is from 0 to 1,001,000,000.
fn weigh(cost: i32, size: u16) -> u32
    requires { SizeFine size × CostFine cost }
    ensures { result ≡ weight size cost }
{
    (i64::from(cost) + i64::from(Kit::COST) * i64::from(size)) as u32
}

// The weights of the 12 kinds: a further kind costs nothing and has size 1. By place: after `iter_mut().zip(..)` the check knows nothing
// of what was written.
pub fn weigh_all(sizes: &[u16], costs: &[i32]) -> [u32; 12]
    requires { FineKit (length sizes.now) sizes.now costs.now }
    ensures { result ≡ weights (length sizes.now) sizes.now costs.now }
{
    let mut weights = [weigh(0, 1); 12];
    for (k, size) in sizes.iter().enumerate() {
        weights[k] = weigh(costs[k], *size);
    }
    weights
}

// A number for each of the 12 kinds: those of x, and one number for each further kind.
fn followed(x: &[u16], further: u16) -> [u16; 12]
    requires { length x.now ≤ most_kinds }
    ensures { result ≡ x.now ++ replicate (most_kinds - length x.now) further }
{
    let mut wide = [further; 12];
    wide[..x.len()].copy_from_slice(x);
    wide
}

// The sizes of the 12 kinds.
pub fn widen_sizes(sizes: &[u16]) -> [u16; 12]
    requires { length sizes.now ≤ most_kinds }
    ensures { result ≡ widen_sizes (length sizes.now) sizes.now }
{
    followed(sizes, 1)
}

// A load as one of the 12 kinds, with no part of a further kind.
pub fn widen(load: &[u16]) -> [u16; 12]
    requires { length load.now ≤ most_kinds }
    ensures { result ≡ widen (length load.now) load.now }
{
    followed(load, 0)
}

// The first counts of each side of a row written as row r of a flat table of m counts a side: as many as both have room for.
fn lay_sides(row: &loads::Row<'_>, m: usize, r: usize, out: &mut [u16])
    requires even { length row.now.tail.now ≡ length row.now.head.now }
    requires room { r * (2 * m) + 2 * m ≤ length out.old }
    ensures { out.new ≡ sides_over m row.now.head.now row.now.tail.now r out.old }
{
    let count = row.head.len().min(m);
    let at = r * (2 * m);
    out[at..at + count].copy_from_slice(&row.head[..count]);
    out[at + m..at + m + count].copy_from_slice(&row.tail[..count]);
}

// The first n counts of each side of a row written as row r of a rule table: all 12 where n is more.
fn lay_row(n: usize, row: &Row, r: usize, rules: &mut [u16])
    requires { r * (2 * n) + 2 * n ≤ length rules.old }
    ensures { rules.new ≡ row_over n (as_row row.now) r rules.old }
{
    let sides = loads::Row {
        head: &row.head,
        tail: &row.tail,
    };
    lay_sides(&sides, n, r, rules);
}

// Rows laid with n counts a side in a rule table of zeros: cut back to n counts, and 0 after the 12 where n is more.
pub fn lay_rows(n: usize, table: &[Row], rules: &mut [u16])
    requires { (length table.now * (2 * n) ≤ length rules.old) × (rules.old ≡ zeros (length rules.old)) }
    ensures { rules.new ≡ filled (length rules.old) (map (resize_row n) (as_rows table.now)) }
{
    for (r, row) in table.iter().enumerate() {
        lay_row(n, row, r, rules);
    }
}

// The same for the rows of a flat table, from n counts a side to m.
pub fn resize_rows(n: usize, flat: &[u16], rows: usize, m: usize, out: &mut [u16])
    requires { (rows * (2 * n) ≤ length flat.now) × (rows * (2 * m) ≤ length out.old) × (out.old ≡ zeros (length out.old)) }
    ensures { out.new ≡ filled (length out.old) (map (resize_row m) (table_of n flat.now rows)) }
{
    for r in 0..rows {
        lay_sides(&loads::row_of(n, flat, r), m, r, out);
    }
}

// A sheet of n counts a side laid in a table of zeros as one of 12.
#[tactic(auto, using(crate::proofs::Widened::rows_laid, crate::proofs::Widened::swaps_laid))]
pub fn widen_swaps(n: usize, swaps: &[u16], count: usize, out: &mut [u16])
    requires { (n ≤ most_kinds) × (count * (2 * n) ≤ length swaps.now) × (count * (2 * most_kinds) ≤ length out.old) × (out.old ≡ zeros (length out.old)) }
    ensures widened_rows { out.new ≡ filled (length out.old) (map (widen_row n) (table_of n swaps.now count)) }
    ensures widened_swaps { numbered (swap_at most_kinds out.new) 0 count ≡ map (widen_swap n) (numbered (swap_at n swaps.now) 0 count) }
{
    resize_rows(n, swaps, count, Kit::KINDS, out);
}

// Completion, grade by grade, over a working kit of 12 kinds: the loops whose meaning is the theory's.
#![tactic(auto)]

ghost use Rattle.std.specs.Prelude.{◌≡◌, ℕ, suc, ◌+◌, ◌*◌, ◌≤◌, ◌<◌, List, length, take, drop, MatchResult};
ghost use Rattle.terms.specs.Swaps.{Swap, exchange};
ghost use Rattle.terms.specs.Flat.{numbered, swap_at, table_of};
ghost use Rattle.laws.specs.Load.{join, UpTo};
ghost use Rattle.rack.specs.Racked.{Loaded};
ghost use Rattle.rack.specs.Rows.{as_rows};
ghost use Rattle.pairs.specs.Pairs.{PairList};
ghost use Rattle.growth.specs.State.{JoinedIn, Working, AtGrade, Within, SwapsDone, made, Listing, PairsDone, TailsSettled, GradeDone, AllDone};
ghost use Rattle.grades.specs.Stamped.{as_sheet, stamps_of};

use arrayvec::ArrayVec;
use pairs::{PAIRS, Pair};
use rack::{Meeting, Row, Table};
use sheets::{LentSheet, StampedSheet};

mod sheets;

// A swap with its stamp: its grade where that is within the bound, else 0, at which nothing is due.
#[derive(Clone, Copy, Default)]
pub struct Stamped {
    pub left: [u16; 12],
    pub right: [u16; 12],
    pub stamp: u16,
}

// The sheet that the program holds.
impl StampedSheet for &[Stamped] {
    ghost sheet = { λ s. as_sheet s.now };

    ghost stamps = { λ s. stamps_of s.now };

    fn count(&self) -> usize {
        self.len()
    }

    fn stamp(&self, k: usize) -> u16 {
        self[k].stamp
    }

    fn sides(&self, k: usize) -> ([u16; 12], [u16; 12]) {
        (self[k].left, self[k].right)
    }

    fn next_above(&self, g: usize, limit: usize) -> usize {
        pairs::next_above(self.iter().map(|swap| swap.stamp), g, limit)
    }
}

// More rows were made than there is room for.
#[derive(Clone, Copy)]
struct NoRoom;

// What completion works on: the sizes and weights of a kit of 12 kinds with its bound, the swaps, and the number of rows that there is room
// for.
#[derive(Drop)]
struct Work<'a, S> {
    sizes: &'a [u16; 12],
    weights: &'a [u32; 12],
    bound: usize,
    swaps: S,
    room: usize,
    ghost few: { room ≤ 256 },
}

// Two loads joined: where they do not meet there is a new row.
fn joined(weights: &[u32; 12], table: &mut Table, mut x: [u16; 12], mut y: [u16; 12])
    requires { Loaded weights.now (as_rows table.old.items) x × Loaded weights.now (as_rows table.old.items) y × (length table.old.items ≤ 256) }
    ensures { JoinedIn weights.now (as_rows table.old.items) x y (as_rows table.new.items) }
{
    match rack::join_rows(weights, table, &mut x, &mut y) {
        Meeting::Met => {}
        Meeting::First => table.push(Row { head: x, tail: y }),
        Meeting::Second => table.push(Row { head: y, tail: x }),
    }
}

// What row (head, tail) makes of the least load that holds its head and the head q, in one pass and not by loads::exchange_in. By place:
// after `iter_mut().zip(..)` the check knows nothing of what was written.
fn make(head: &[u16; 12], tail: &[u16; 12], q: &[u16; 12]) -> [u16; 12]
    requires { UpTo 65535 (exchange head.now tail.now (join head.now q.now)) }
    ensures { result ≡ exchange head.now tail.now (join head.now q.now) }
{
    let mut made = [0; 12];
    for (k, count) in made.iter_mut().enumerate() {
        *count = head[k].max(q[k]) - head[k] + tail[k];
    }
    made
}

// What rows p and j make of the least load that holds both their heads, joined.
fn join_pair(weights: &[u32; 12], p: usize, j: usize, table: &mut Table)
    requires { (p < length table.old.items) × (j < length table.old.items) × (length table.old.items ≤ 256) × Loaded weights.now (as_rows table.old.items) (made (as_rows table.old.items) p j) × Loaded weights.now (as_rows table.old.items) (made (as_rows table.old.items) j p) }
    ensures { JoinedIn weights.now (as_rows table.old.items) (made (as_rows table.old.items) p j) (made (as_rows table.old.items) j p) (as_rows table.new.items) }
{
    let (first, second) = (table[p], table[j]);
    let x = make(&first.head, &first.tail, &second.head);
    let y = make(&second.head, &second.tail, &first.head);
    joined(weights, table, x, y);
}

// The tails of the rows from base on settled. By number: each turn works on the whole table and names the row.
fn settle_tails(table: &mut [Row], base: usize)
    ghost weights: { List ℕ }
    requires inside { (sheet : List Swap) × (stamps : List ℕ) × (g : ℕ) × (w : Within weights sheet stamps g (as_rows table.old)) × (length w.low ≡ base) }
    requires in_table { base ≤ length table.old }
    ensures { TailsSettled weights (as_rows table.old) base (as_rows table.new) }
{
    for r in base..table.len() {
        rack::settle_row_tail(table, r);
    }
}

impl<S: StampedSheet> Work<'_, S> {
    // The swaps of grade g joined, as far as there is room.
    fn join_swaps(&self, g: u16, table: &mut Table) -> Result<(), NoRoom>
        requires { Within self.now.weights.now (S.sheet self.now.swaps) (S.stamps self.now.swaps) g (as_rows table.old.items) × (length table.old.items ≤ self.now.room) }
        ensures done { SwapsDone self.now.weights.now (S.sheet self.now.swaps) (S.stamps self.now.swaps) g (as_rows table.old.items) self.now.room (as_rows table.new.items) }
        ensures room { MatchResult result (λ _. length table.new.items ≤ self.now.room) (λ _. self.now.room < length table.new.items) }
    {
        for k in 0..self.swaps.count() {
            if self.swaps.stamp(k) == g {
                let (left, right) = self.swaps.sides(k);
                joined(self.weights, table, left, right);
                if self.room < table.len() {
                    return Err(NoRoom);
                }
            }
        }
        Ok(())
    }

    // The listed pairs that are due at grade g joined, as far as there is room.
    // A loop of its own beside join_swaps: one for both would take the joining as a closure, and say of any closure what these two say of
    // theirs.
    fn join_pairs(&self, list: &[Pair], g: u16, table: &mut Table) -> Result<(), NoRoom>
        requires listed { (sheet : List Swap) × (stamps : List ℕ) × Listing self.now.weights.now sheet stamps g list.now (as_rows table.old.items) }
        requires has_room { length table.old.items ≤ self.now.room }
        ensures done { PairsDone self.now.weights.now list.now g (as_rows table.old.items) self.now.room (as_rows table.new.items) }
        ensures room { MatchResult result (λ _. length table.new.items ≤ self.now.room) (λ _. self.now.room < length table.new.items) }
    {
        for pair in list {
            if pair.due == g {
                join_pair(
                    self.weights,
                    usize::from(pair.first),
                    usize::from(pair.second),
                    table,
                );
                if self.room < table.len() {
                    return Err(NoRoom);
                }
            }
        }
        Ok(())
    }

    // Grade g: its swaps and its listed pairs joined, the new rows' tails settled, the new rows put in order and entered. The cast loses
    // nothing: a bound is at most 1,000.
    fn one_grade(
        &self,
        g: u16,
        table: &mut Table,
        list: &mut ArrayVec<Pair, PAIRS>,
    ) -> Result<(), NoRoom>
        ghost weights: { List ℕ }
        requires weighed { weights ≡ self.now.weights.now }
        requires at_grade { ((w : Working self.now.bound self.now.sizes.now self.now.weights.now (S.sheet self.now.swaps) (S.stamps self.now.swaps)) × AtGrade w g (as_rows table.old.items)) × PairList self.now.bound self.now.sizes.now (as_rows table.old.items) (length (as_rows table.old.items)) list.old.items }
        requires has_room { (1 ≤ g) × (g ≤ self.now.bound) × (length table.old.items ≤ self.now.room) }
        ensures done { GradeDone self.now.bound self.now.sizes.now self.now.weights.now (S.sheet self.now.swaps) (S.stamps self.now.swaps) g (as_rows table.old.items) self.now.room (as_rows table.new.items) list.new.items }
        ensures room { MatchResult result (λ _. length table.new.items ≤ self.now.room) (λ _. self.now.room < length table.new.items) }
    {
        let base = table.len();
        self.join_swaps(g, table)?;
        self.join_pairs(list, g, table)?;
        let rows = table.as_mut_slice();
        settle_tails(rows, base);
        rack::sort_rows(rows, base);
        pairs::enter_rows(self.sizes, self.bound as u32, rows, base, list);
        Ok(())
    }

    // Every grade up to the bound at which anything is due, from an empty table. It has more rows than the room where there is none for
    // them all: its length tells, as `AllDone` says. The cast loses nothing: a grade is at most the bound.
    fn every_grade(&self, table: &mut Table)
        requires { Working self.now.bound self.now.sizes.now self.now.weights.now (S.sheet self.now.swaps) (S.stamps self.now.swaps) }
        ensures { AllDone self.now.bound self.now.sizes.now self.now.weights.now (S.sheet self.now.swaps) self.now.room (as_rows table.new.items) }
    {
        table.clear();
        let past = self.bound + 1;
        let mut g = self.swaps.next_above(0, past);
        if past <= g {
            // nothing is due: without this the list, of 130 KB, would be cleared for nothing
            return;
        }
        let mut list = ArrayVec::new();
        while g < past {
            if self.one_grade(g as u16, table, &mut list).is_err() {
                return;
            }
            let limit = pairs::next_above(list.iter().map(|pair| pair.due), g, past);
            g = self.swaps.next_above(g, limit);
        }
    }
}

// Every grade, over the swaps that the program holds: the table has one row more than the room where there is none for them all.
pub fn grow(
    sizes: &[u16; 12],
    weights: &[u32; 12],
    bound: usize,
    swaps: &[Stamped],
    table: &mut Table,
    room: usize,
)
    requires { Working bound sizes.now weights.now (as_sheet swaps.now) (stamps_of swaps.now) × (room ≤ 256) }
    ensures { AllDone bound sizes.now weights.now (as_sheet swaps.now) room (as_rows table.new.items) }
{
    let work = Work {
        sizes,
        weights,
        bound,
        swaps,
        room,
    };
    work.every_grade(table);
}

// The rows laid flat, from the start of a table: what stands past them stays.
fn lay(rows: &[Row], flat: &mut [u16])
    requires { length rows.now * 24 ≤ length flat.old }
    ensures rows { table_of 12 flat.new (length rows.now) ≡ as_rows rows.now }
    ensures rest { drop (length rows.now * 24) flat.new ≡ drop (length rows.now * 24) flat.old }
{
    for (r, row) in rows.iter().enumerate() {
        let at = r * 24;
        flat[at..at + 12].copy_from_slice(&row.head);
        flat[at + 12..at + 24].copy_from_slice(&row.tail);
    }
}

// Every grade, over what is lent flat: the number of rows, which is one more than the room where there is none for them all.
pub fn all_grades(
    sizes: &[u16],
    weights: &[u32],
    bound: usize,
    swaps: &[u16],
    stamps: &[u16],
    count: usize,
    table: &mut [u16],
    room: usize,
) -> usize
    requires working { Working bound sizes.now weights.now (numbered (swap_at 12 swaps.now) 0 count) (take count stamps.now) }
    requires lent { (count * 24 ≤ length swaps.now) × (count ≤ length stamps.now) }
    requires has_room { (room ≤ 256) × (room * 24 + 24 ≤ length table.old) }
    ensures done { AllDone bound sizes.now weights.now (numbered (swap_at 12 swaps.now) 0 count) room (table_of 12 table.new result) }
    ensures rows { (result ≤ suc room) × (length table.new ≡ length table.old) }
{
    let mut weighed = [0; 12];
    weighed.copy_from_slice(weights);
    let work = Work {
        sizes: &sheets::twelve(sizes),
        weights: &weighed,
        bound,
        swaps: LentSheet {
            swaps,
            stamps: &stamps[..count],
        },
        room,
    };
    let mut rows = Table::new();
    work.every_grade(&mut rows);
    lay(&rows, table);
    rows.len()
}

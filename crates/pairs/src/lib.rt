// The list of pairs: which pairs of rows of the working table are to be joined, and at which grade.
#![tactic(auto)]

ghost use Rattle.std.specs.Prelude.{◌≡◌, ℕ, ◌+◌, ◌*◌, ◌<◌, ◌≤◌, List, [], ◌∷◌, ◌++◌, length, take, map, not, MatchOption, Contains};
ghost use Rattle.std.specs.Iterator.{IsFinite, Drains};
ghost use Rattle.terms.specs.Decides.{Decides};
ghost use Rattle.terms.specs.Flat.{table_of};
ghost use Rattle.terms.specs.Load.{Fits, grade};
ghost use Rattle.terms.specs.Table.{Row as TableRow};
ghost use Rattle.laws.specs.Load.{join, UpTo};
ghost use Rattle.rack.specs.Rows.{as_row, as_rows, head_at};
ghost use Rattle.pairs.specs.Pairs.{common, PairList, NextAbove, Enterable};
ghost use Rattle.pairs.specs.Flat.{halves, pairs_of, FlatPairList, FlatEnterable};
ghost use Rattle.pairs.specs.Candidates.{AllBelow, Picked, Sifted, Taken};

use arrayvec::ArrayVec;
use rack::Row;

// A pair of rows of the working table that is to be joined, and the grade at which it is due.
#[derive(Clone, Copy, Default)]
pub struct Pair {
    pub due: u16,
    pub first: u8,
    pub second: u8,
}

// The number of pairs of 256 rows.
pub const PAIRS: usize = 32_640;

// A row below the one that is entered, and the grade of the least load that holds both their heads.
#[derive(Clone, Copy, Default)]
struct Candidate {
    row: u8,
    grade: u16,
}

// A row of a working table, wherever its counts lie. A trait of our own: `AsRef` tells a generic walk nothing of the row.
trait Rowed {
    ghost read_as: { Self → TableRow };

    fn head(&self) -> &[u16; 12]
        ensures { result.now ≡ (read_as self.now).head };
}

impl Rowed for Row {
    ghost read_as = { as_row };

    fn head(&self) -> &[u16; 12] {
        &self.head
    }
}

// A row of a flat table: 12 counts of the head, and 12 of the tail.
impl Rowed for [u16; 24] {
    ghost read_as = { halves };

    fn head(&self) -> &[u16; 12] {
        first_twelve(self)
    }
}

// The first twelve counts, where they lie.
fn first_twelve(counts: &[u16]) -> &[u16; 12]
    requires { 12 ≤ length counts.now }
    ensures { result.now ≡ take 12 counts.now }
{
    let (twelves, _) = counts.as_chunks::<12>();
    &twelves[0]
}

// The grade of the least load that holds both, which is never written down: to call loads::grade_of it would be.
pub fn common_grade(sizes: &[u16; 12], a: &[u16; 12], b: &[u16; 12]) -> u32
    requires { UpTo 1000 sizes.now × UpTo 1000 a.now × UpTo 1000 b.now }
    ensures { result ≡ grade sizes.now (join a.now b.now) }
{
    let mut sum: u32 = 0;
    for ((&size, &x), &y) in sizes.iter().zip(a).zip(b) {
        sum += u32::from(size) * u32::from(x.max(y));
    }
    sum
}

// Whether p fits in the least load that holds a and b, which is never written down: to call loads::fits_in it would be. In the least that
// holds p and b it does.
pub fn covers(p: &[u16; 12], a: &[u16; 12], b: &[u16; 12]) -> bool
    ensures tested { Decides (Fits p.now (join a.now b.now)) result }
    ensures own { Fits p.now (join p.now b.now) }
{
    let mut ok = true;
    for ((&count, &x), &y) in p.iter().zip(a).zip(b) {
        ok &= count <= x.max(y);
    }
    ok
}

// Whether row i lies below row j, and row p is a pivot of the two: its head fits in the least load that holds their heads.
fn has_pivot<R: Rowed>(table: &[R], p: usize, i: usize, j: usize) -> bool
    requires { (p ≤ j) × (j < length table.now) }
    ensures tested { Decides ((i < j) × Fits (head_at (map R.read_as table.now) p) (common (map R.read_as table.now) i j)) result }
    ensures own { i < j → Fits (head_at (map R.read_as table.now) p) (common (map R.read_as table.now) p j) }
{
    i < j && covers(table[p].head(), table[i].head(), table[j].head())
}

// Picks the rows below j whose least load with row j is within the bound, with the grades. The casts lose nothing: a row number is below
// 256, and a grade at most the bound. Sizes, bound and table go side by side: a struct of them would be made for one call. The vector is
// lent: an answered one would be copied.
fn pick<R: Rowed>(
    sizes: &[u16; 12],
    bound: u32,
    table: &[R],
    j: usize,
    picked: &mut ArrayVec<Candidate, 256>,
)
    requires { Enterable bound sizes.now (map R.read_as table.now) (j + 1) }
    ensures { Picked bound sizes.now (map R.read_as table.now) j j picked.new.items }
{
    picked.clear();
    for (i, row) in table[..j].iter().enumerate() {
        let grade = common_grade(sizes, row.head(), table[j].head());
        if grade <= bound {
            picked.push(Candidate {
                row: i as u8,
                grade: grade as u16,
            });
        }
    }
}

// A candidate of least grade, or none where there is no candidate. The proof needs no more than a candidate.
fn least(candidates: &[Candidate]) -> Option<Candidate>
    ensures { MatchOption result (length candidates.now ≡ 0) (λ a. Contains candidates.now a) }
{
    candidates.iter().min_by_key(|a| a.grade).copied()
}

// Whether a candidate stays: row p is no pivot of its row and row j.
fn stays<R: Rowed>(table: &[R], p: usize, j: usize, a: &Candidate) -> bool
    requires { (p ≤ j) × (j < length table.now) }
    ensures tested { Decides ((a.now.row < j) × Fits (head_at (map R.read_as table.now) p) (common (map R.read_as table.now) a.now.row j)) (not result) }
    ensures own { a.now.row < j → Fits (head_at (map R.read_as table.now) p) (common (map R.read_as table.now) p j) }
{
    !has_pivot(table, p, usize::from(a.row), j)
}

// Drops the candidates for which row p is a pivot.
fn sift<R: Rowed>(table: &[R], p: usize, j: usize, candidates: &mut ArrayVec<Candidate, 256>)
    requires { (p < j) × (j < length table.now) }
    ensures { Sifted (map R.read_as table.now) p j candidates.old.items candidates.new.items }
{
    candidates.retain(
        |a|
            requires { (p < j) × (j < length table.now) }
        { stays(table, p, j, a) },
    );
}

// The next pair with row j, which is below 256: a candidate of least grade, by which the candidates are sifted. None where none is left.
fn next_pair<R: Rowed>(
    table: &[R],
    j: usize,
    candidates: &mut ArrayVec<Candidate, 256>,
) -> Option<Pair>
    requires { (j < 256) × (j < length table.now) × AllBelow j candidates.old.items }
    ensures { MatchOption result (length candidates.old.items ≡ 0) (λ pair. Taken (map R.read_as table.now) j candidates.old.items pair candidates.new.items) }
{
    let pivot = least(candidates)?;
    sift(table, usize::from(pivot.row), j, candidates);
    Some(Pair {
        due: pivot.grade,
        first: pivot.row,
        second: j as u8,
    })
}

// Enters row j, which is below 256: lists pairs (p, j) until each row below j within the bound has a pivot.
pub fn enter_row(
    sizes: &[u16; 12],
    bound: u32,
    table: &[Row],
    j: usize,
    list: &mut ArrayVec<Pair, PAIRS>,
)
    requires { Enterable bound sizes.now (as_rows table.now) (j + 1) × PairList bound sizes.now (as_rows table.now) j list.old.items }
    ensures { PairList bound sizes.now (as_rows table.now) (j + 1) list.new.items }
{
    let mut candidates = ArrayVec::new();
    pick(sizes, bound, table, j, &mut candidates);
    while let Some(pair) = next_pair(table, j, &mut candidates) {
        list.push(pair);
    }
}

// The first rows of a flat table, where they lie.
fn first_rows(table: &[u16], rows: usize) -> &[[u16; 24]]
    requires { rows * 24 ≤ length table.now }
    ensures { map halves result.now ≡ table_of 12 table.now rows }
{
    let (whole, _) = table.as_chunks::<24>();
    &whole[..rows]
}

// The pair written behind the first `pairs` of two flat lists. Gives the new number of pairs.
fn write_pair(pair: Pair, due: &mut [u16], mates: &mut [u16], pairs: usize) -> usize
    requires { (pairs < length due.old) × (pairs < length mates.old) }
    ensures { pairs_of due.new mates.new result ≡ pairs_of due.old mates.old pairs ++ pair ∷ [] }
{
    due[pairs] = pair.due;
    mates[pairs] = u16::from(pair.first) * 256 + u16::from(pair.second);
    pairs + 1
}

// Enters row j of a flat table: what enter_row lists is written behind the first `pairs` of two flat lists. Gives the new number of pairs.
pub fn enter(
    sizes: &[u16],
    bound: u32,
    table: &[u16],
    j: usize,
    due: &mut [u16],
    mates: &mut [u16],
    pairs: usize,
) -> usize
    requires { FlatEnterable bound sizes.now table.now (j + 1) × (length due.old ≡ 32640) × (length mates.old ≡ 32640) × FlatPairList bound sizes.now table.now j due.old mates.old pairs }
    ensures { FlatPairList bound sizes.now table.now (j + 1) due.new mates.new result }
{
    let rows = first_rows(table, j + 1);
    let mut candidates = ArrayVec::new();
    pick(first_twelve(sizes), bound, rows, j, &mut candidates);
    let mut count = pairs;
    while let Some(pair) = next_pair(rows, j, &mut candidates) {
        count = write_pair(pair, due, mates, count);
    }
    count
}

// Enters the rows from base on. By number: each turn works on the whole table and names the row.
pub fn enter_rows(
    sizes: &[u16; 12],
    bound: u32,
    table: &[Row],
    base: usize,
    list: &mut ArrayVec<Pair, PAIRS>,
)
    requires { Enterable bound sizes.now (as_rows table.now) (length table.now) × (base ≤ length table.now) × PairList bound sizes.now (as_rows table.now) base list.old.items }
    ensures { PairList bound sizes.now (as_rows table.now) (length table.now) list.new.items }
{
    for j in base..table.len() {
        enter_row(sizes, bound, table, j, list);
    }
}

// Enters the rows of a flat table from base to before `rows`. Gives the new number of pairs.
pub fn enter_all(
    sizes: &[u16],
    bound: u32,
    table: &[u16],
    base: usize,
    rows: usize,
    due: &mut [u16],
    mates: &mut [u16],
    pairs: usize,
) -> usize
    requires { FlatEnterable bound sizes.now table.now rows × (base ≤ rows) × (length due.old ≡ 32640) × (length mates.old ≡ 32640) × FlatPairList bound sizes.now table.now base due.old mates.old pairs }
    ensures { FlatPairList bound sizes.now table.now rows due.new mates.new result }
{
    let mut listed = pairs;
    for j in base..rows {
        listed = enter(sizes, bound, table, j, due, mates, listed);
    }
    listed
}

// The least of the grades that is above g, or the limit where there is none below it. The limit and no None: `NextAbove` says it so, and
// the walk over the grades goes on, or ends, with the number as it is.
pub fn next_above<I: Iterator<Item = u16> + Drop>(grades: I, g: usize, limit: usize) -> usize
    requires can { I.can_next grades }
    requires finite { IsFinite (I.remaining grades) }
    requires below { g < limit }
    ensures { (all : List ℕ) × Drains I.next_gives grades all × NextAbove all g limit result }
{
    let mut best = limit;
    for due in grades {
        let grade = usize::from(due);
        // a choice of two numbers, and no jump
        let taken = if g < grade { grade } else { limit };
        best = best.min(taken);
    }
    best
}

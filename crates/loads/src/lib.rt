// Loads in lent slices, and the rows of flat tables: each function decides or computes one definition. The width n and the flat table go
// side by side, as C lends them and `left_at n flat r` takes them.
#![tactic(auto)]

ghost use Rattle.std.specs.Prelude.{◌≡◌, ◌+◌, ◌*◌, ◌≤◌, ◌<◌, length, map, IfSome, unwrap_or, ◌^◌, ℤ, pos, nat_abs, Ok};
ghost use Rattle.terms.specs.Decides.{Decides};
ghost use Rattle.terms.specs.Load.{Fits, grade};
ghost use Rattle.terms.specs.Order.{cost};
ghost use Rattle.terms.specs.Swaps.{exchange};
ghost use Rattle.terms.specs.Flat.{left_at, right_at};
ghost use Rattle.terms.specs.Limits.{All, KindsFine, SizeFine, most_kinds};
ghost use Rattle.laws.specs.Load.{UpTo};
ghost use Rattle.loads.specs.Lent.{Lent};
ghost use Rattle.terms.specs.Outcome.{Outcome};
ghost use Rattle.loads.specs.FirstRow.{FirstRow};
ghost use Rattle.loads.specs.KitTests.{kit_tests};

use terms::{Kit, Refusal, Refused};

// Wide enough for the grade of any load: 12 times 65,535 times 65,535.
pub type Grade = usize;

// Whether h fits in x. It looks at every count, so that the compiler can test many counts at once; by place, as `measure_of`.
pub fn fits_in(h: &[u16], x: &[u16]) -> bool
    requires { length h.now ≡ length x.now }
    ensures { Decides (Fits h.now x.now) result }
{
    let mut fits = true;
    for k in 0..x.len() {
        fits &= h[k] <= x[k];
    }
    fits
}

// What one part of a kind counts for: its size, its cost, its weight. A trait of our own, since `Into<i64>` tells a generic sum neither
// the number nor that it is below 2 to the 32.
pub trait Measure: Copy {
    ghost value: { Self → ℤ };

    fn wide(self) -> i64
        ensures exact { result ≡ value self }
        ensures small { nat_abs (value self) < 2 ^ 32 };
}

impl Measure for u16 {
    ghost value = { pos };

    fn wide(self) -> i64 {
        i64::from(self)
    }
}

impl Measure for u32 {
    ghost value = { pos };

    fn wide(self) -> i64 {
        i64::from(self)
    }
}

impl Measure for i32 {
    ghost value = { λ c. c };

    fn wide(self) -> i64 {
        i64::from(self)
    }
}

// What x counts for: the sum of count times measure, exact. By place: over a zip, or `enumerate`, testing the rows of a table took a fifth
// longer.
pub fn measure_of<M: Measure>(measures: &[M], x: &[u16]) -> i64
    requires { (length measures.now ≡ length x.now) × (length x.now ≤ most_kinds) }
    ensures { result ≡ cost (map M.value measures.now) x.now }
{
    let mut sum = 0;
    for k in 0..x.len() {
        sum += i64::from(x[k]) * measures[k].wide();
    }
    sum
}

// The grade of x: the sum of size times count. The cast loses nothing, since no size is negative.
pub fn grade_of(sizes: &[u16], x: &[u16]) -> Grade
    requires { (length sizes.now ≡ length x.now) × (length x.now ≤ most_kinds) }
    ensures { result ≡ grade sizes.now x.now }
{
    measure_of(sizes, x) as Grade
}

// The left side of row r of a flat table, as a part from the middle of the table.
pub fn left_of(n: usize, flat: &[u16], r: usize) -> &[u16]
    requires { r * (2 * n) + 2 * n ≤ length flat.now }
    ensures { (result.now ≡ left_at n flat.now r) × (length result.now ≡ n) }
{
    let at = r * (2 * n);
    &flat[at..at + n]
}

// The right side of row r. It stays beside left_of: one function for both would take which side, and a caller would say no less.
pub fn right_of(n: usize, flat: &[u16], r: usize) -> &[u16]
    requires { r * (2 * n) + 2 * n ≤ length flat.now }
    ensures { (result.now ≡ right_at n flat.now r) × (length result.now ≡ n) }
{
    let at = r * (2 * n) + n;
    &flat[at..at + n]
}

// A row of a flat table: its two sides, as parts from the middle of the table. Tables are lent flat; `rack::Row` holds its counts itself.
#[derive(Clone, Copy)]
pub struct Row<'a> {
    pub head: &'a [u16],
    pub tail: &'a [u16],
}

// Both sides of row r.
pub fn row_of(n: usize, flat: &[u16], r: usize) -> Row<'_>
    requires { r * (2 * n) + 2 * n ≤ length flat.now }
    ensures head { (result.head.now ≡ left_at n flat.now r) × (length result.head.now ≡ n) }
    ensures tail { (result.tail.now ≡ right_at n flat.now r) × (length result.tail.now ≡ n) }
{
    Row {
        head: left_of(n, flat, r),
        tail: right_of(n, flat, r),
    }
}

// h taken out of x and t put in, in place. By place: after `iter_mut().zip(..)` the check knows nothing of what was written.
pub fn exchange_in(h: &[u16], t: &[u16], x: &mut [u16])
    requires { Fits h.now x.old × (length t.now ≡ length x.old) × UpTo 65535 (exchange h.now t.now x.old) }
    ensures { x.new ≡ exchange h.now t.now x.old }
{
    for (k, count) in x.iter_mut().enumerate() {
        *count = *count - h[k] + t[k];
    }
}

// The first of the table's first `rows` rows whose left side fits in x.
pub fn first_fit(n: usize, flat: &[u16], rows: usize, x: &[u16]) -> Option<usize>
    requires { (rows * (2 * n) ≤ length flat.now) × (length x.now ≡ n) }
    ensures first { FirstRow n flat.now rows x.now (unwrap_or result rows) }
    ensures in_table { IfSome result (λ r. r < rows) }
{
    (0..rows).find(|&r| fits_in(left_of(n, flat, r), x))
}

// Whether a number is from 1 to `most`: of kinds, a bound, a size.
pub fn in_range(number: usize, most: usize) -> bool
    ensures { Decides ((1 ≤ number) × (number ≤ most)) result }
{
    (1..=most).contains(&number)
}

// The first test of a kit's numbers that fails, as the refusal at a place: 0, or the line of the kit in a text.
pub fn kit_tested(kit: Kit, place: usize) -> Result<(), Refused>
    ensures { Outcome (λ r. r ≡ Ok tt) (kit_tests kit.kinds kit.bound place) result }
{
    if !in_range(kit.kinds, Kit::KINDS) {
        return Err(Refusal::Kinds.at(place));
    }
    if !in_range(kit.bound, Kit::BOUND) {
        return Err(Refusal::Bound.at(place));
    }
    Ok(())
}

// Whether every size is in range.
pub fn sizes_fine(sizes: &[u16]) -> bool
    ensures { Decides (All SizeFine sizes.now) result }
{
    sizes.iter().all(|size| in_range(usize::from(*size), usize::from(Kit::SIZE)))
}

// Whether a lent table has whole rows, and at most so many.
pub fn lent(n: usize, most: usize, flat: &[u16]) -> bool
    requires { KindsFine n }
    ensures { Decides (Lent n most flat.now) result }
{
    flat.len() % (2 * n) == 0 && flat.len() / (2 * n) <= most
}

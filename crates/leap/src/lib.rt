// One row applied many times at once, where single steps by the first row that fits would do the same. A row is a view of any table and
// x a load of any kit, so each contract says that their lengths agree.
#![tactic(auto)]

ghost use Rattle.std.specs.Prelude.{◌≡◌, ℕ, ◌+◌, ◌*◌, ◌-◌, ◌≤◌, ◌<◌, length, get_or};
ghost use Rattle.terms.specs.Load.{Fits};
ghost use Rattle.terms.specs.Limits.{most_kinds};
ghost use Rattle.laws.specs.Load.{UpTo};
ghost use Rattle.leap.specs.Rounds.{went, top, wents, tops, Rounds, Calm};

use loads::Row;
use terms::Kit;

// More rounds than any load within the bound can take.
const MOST: u16 = 1_000;

// What a row takes out of one kind and puts in, and how many a load has of it.
#[derive(Clone, Copy)]
struct Kind {
    head: u16,
    tail: u16,
    count: u16,
}

impl Kind {
    // Kind k of a row, where a load has `count` of it.
    fn of(row: &Row<'_>, k: usize, count: u16) -> Kind
        requires { (k < length row.now.head.now) × (k < length row.now.tail.now) }
        ensures { (result.head ≡ get_or row.now.head.now k 0) × (result.tail ≡ get_or row.now.tail.now k 0) × (result.count ≡ count) }
    {
        Kind {
            head: row.head[k],
            tail: row.tail[k],
            count,
        }
    }

    // What a round takes away.
    fn fall(self) -> u16
        ensures { result ≡ self.head - self.tail }
    {
        self.head.saturating_sub(self.tail)
    }

    // What a round adds.
    fn rise(self) -> u16
        ensures { result ≡ self.tail - self.head }
    {
        self.tail.saturating_sub(self.head)
    }

    // How many more rounds the head fits, at most `most`.
    fn rounds(self, most: u16) -> u16
        requires { self.head ≤ self.count }
        ensures { (result ≤ most) × (self.head + result * (self.head - self.tail) ≤ self.count) }
    {
        match self.fall() {
            0 => most,
            fall => most.min((self.count - self.head) / fall),
        }
    }

    // The greatest count on the way.
    fn top(self, more: u16) -> u16
        requires { top more self.head self.tail self.count ≤ 65535 }
        ensures { result ≡ top more self.head self.tail self.count }
    {
        self.count + more * self.rise()
    }

    // The count after the given rounds.
    fn went(self, rounds: u16) -> u16
        requires { (rounds * (self.head - self.tail) ≤ self.count) × (went rounds self.head self.tail self.count ≤ 65535) }
        ensures { result ≡ went rounds self.head self.tail self.count }
    {
        self.count + rounds * self.rise() - rounds * self.fall()
    }

    // The most rounds after which there is not `want` of it yet, at least `least`. It only guides the choice of the rounds.
    fn rounds_to(self, want: u16, least: u16) -> u16
        ensures { least ≤ result }
    {
        if want <= self.count || self.tail <= self.head {
            return least;
        }
        least.max((want - self.count - 1) / self.rise())
    }
}

// How many more rounds the head fits: the most, or `MOST`. By place: over a zip of the three it takes
// 24 ns or more, and so 21.
pub fn rounds_of(row: &Row<'_>, x: &[u16]) -> u16
    requires { Fits row.now.head.now x.now × (length row.now.tail.now ≡ length x.now) }
    ensures { (result ≤ 1000) × Rounds result row.now.head.now row.now.tail.now x.now }
{
    let mut more = MOST;
    for (k, count) in x.iter().enumerate() {
        more = Kind::of(row, k, *count).rounds(more);
    }
    more
}

// The load of the greatest counts on the way, put into y. By place: after `iter_mut().zip(..)` the check knows nothing of
// what was written.
pub fn top_in(more: u16, row: &Row<'_>, x: &[u16], y: &mut [u16])
    requires { (length row.now.head.now ≡ length x.now) × (length row.now.tail.now ≡ length x.now) × (length y.old ≡ length x.now) × UpTo 65535 (tops more row.now.head.now row.now.tail.now x.now) }
    ensures { y.new ≡ tops more row.now.head.now row.now.tail.now x.now }
{
    for (k, count) in y.iter_mut().enumerate() {
        *count = Kind::of(row, k, x[k]).top(more);
    }
}

// `more` + 1 rounds, in place; by place, as top_in.
pub fn leap_in(more: u16, row: &Row<'_>, x: &mut [u16])
    requires { (length row.now.head.now ≡ length x.old) × (length row.now.tail.now ≡ length x.old) × (more ≤ 1000) × Rounds more row.now.head.now row.now.tail.now x.old × UpTo 65535 (wents (more + 1) row.now.head.now row.now.tail.now x.old) }
    ensures { x.new ≡ wents (more + 1) row.now.head.now row.now.tail.now x.old }
{
    for (k, count) in x.iter_mut().enumerate() {
        *count = Kind::of(row, k, *count).went(more + 1);
    }
}

// Fewer rounds: the most after which the head p of an earlier row does not fit yet, or 0. By place, as rounds_of.
fn fewer(p: &[u16], row: &Row<'_>, x: &[u16], more: u16) -> u16
    requires { (0 < more) × (length p.now ≡ length x.now) × (length row.now.head.now ≡ length x.now) × (length row.now.tail.now ≡ length x.now) }
    ensures { result < more }
{
    let mut rounds = 0;
    for (k, want) in p.iter().enumerate() {
        rounds = Kind::of(row, k, x[k]).rounds_to(*want, rounds);
    }
    if rounds < more { rounds } else { 0 }
}

// At most `more` rounds on the way of which no row before r fits.
pub fn calm(n: usize, rules: &[u16], r: usize, row: &Row<'_>, x: &[u16], more: u16) -> u16
    requires lengths { (n ≤ most_kinds) × (r * (2 * n) ≤ length rules.now) × (length row.now.head.now ≡ n) × (length row.now.tail.now ≡ n) × (length x.now ≡ n) }
    requires tops_fit { ((m : ℕ) → m ≤ more → UpTo 65535 (tops m row.now.head.now row.now.tail.now x.now)) × Calm n rules.now r row.now.head.now row.now.tail.now x.now 0 }
    ensures { (result ≤ more) × Calm n rules.now r row.now.head.now row.now.tail.now x.now result }
{
    let mut tops = [0u16; Kit::KINDS];
    let tops = &mut tops[..n];
    let mut m = more;
    while 0 < m {
        top_in(m, row, x, tops);
        let Some(q) = loads::first_fit(n, rules, r, tops) else {
            return m;
        };
        m = fewer(loads::left_of(n, rules, q), row, x, m);
    }
    0
}

// The lines of a sheet: the shape of a whole line first, then what its numbers may be. A line that is accepted is stored.
// Each function takes a place of the text and hands the next one back, as the definitions go: `split 10 (drop at text)`.
#![tactic(auto)]

ghost use Rattle.std.specs.Prelude.{ℕ, List, Bool, ◌≡◌, ◌+◌, ◌-◌, ◌*◌, ◌^◌, ◌≤◌, ◌<◌, length, take, drop};
ghost use Rattle.terms.specs.Limits.{KindsFine, most_kinds, most_size, most_cost, most_swaps, most_count};
ghost use Rattle.texts.specs.Number.{cap};
ghost use Rattle.lines.specs.Fields.{number_of_word};
ghost use Rattle.shapes.specs.Split.{fine, split, shaped, read_line};
ghost use Rattle.shapes.specs.Rows.{code_of, numbers_got};
ghost use Rattle.records.specs.Lines.{Pieces, after, ask, all, kit_of, kit_line, size_line, cost_line, counts_line, swap_line};
ghost use Rattle.records.specs.Steps.{kit_said, kit_got, ranged, Stored, Coded, cost_from, Recorded};

use lines::Word;
use terms::{Kit, Refusal, Refused};

// The kit line: its kit, and the place of the next line.
#[derive(Clone, Copy)]
pub struct KitLine {
    pub kit: Kit,
    pub next: usize,
}

// The line that has to stand at a place, its numbers in the row: the place of the next line.
fn due_line(
    text: &[u8],
    at: usize,
    line: usize,
    word: Word,
    signed: bool,
    row: &mut [u32],
) -> Result<usize, Refused>
    ensures { read_line line (shaped (number_of_word word) (code_of signed) (length row.old)) (split 10 (drop at text.now)) ≡ numbers_got result row.new text.now }
{
    shapes::word_line_at(text, at, line, word, signed, row)?.ok_or(Refusal::BadLine.at(line))
}

// The kit that the numbers of line 1 stand for, if both are within their limits.
fn kit_from(kinds: usize, bound: usize) -> Result<Kit, Refused>
    ensures { (rest : Pieces) → kit_of kinds bound rest ≡ kit_said result rest }
{
    let kit = Kit::of(kinds, bound);
    loads::kit_tested(kit, 1)?;
    Ok(kit)
}

// Line 1: the kit, its n and its B within their limits. From u32 to usize there is no `From`; the casts lose nothing.
pub fn kit_line(text: &[u8]) -> Result<KitLine, Refused>
    ensures { kit_line (split 10 text.now) ≡ kit_got result text.now }
{
    let mut row = [0; 2];
    let next = due_line(text, 0, 1, Word::Kit, false, &mut row)?;
    let kit = kit_from(row[0] as usize, row[1] as usize)?;
    Ok(KitLine { kit, next })
}

// Stores what each number of a row stands for, while each stands for something; says whether all do. A plain flag: what is stored
// stands in the table, and an Option of nothing would say no more.
fn stored<T: Copy, F: Fn(u32) -> Option<T>>(row: &[u32], table: &mut [T], read: F) -> bool
    requires callable { F.IsAlwaysCallable read }
    requires room { length row.now ≤ length table.old }
    ensures { (reads : ℕ → _) (least most : ℕ) → ((v : ℕ) (r : _) → v < 2 ^ 32 → F.post read v r → r ≡ ranged reads least most v) → Stored reads least most row.now result table.new }
{
    // By place: after `table.iter_mut().zip(row)` the check knows nothing of what was written.
    for (i, number) in row.iter().enumerate() {
        let Some(value) = read(*number) else {
            return false;
        };
        table[i] = value;
    }
    true
}

// The line of a number for each place of a table, each stored as what it stands for: the place of the next line.
fn numbers_line<T: Copy, F: Fn(u32) -> Option<T>>(
    text: &[u8],
    at: usize,
    line: usize,
    word: Word,
    signed: bool,
    why: Refusal,
    table: &mut [T],
    read: F,
) -> Result<usize, Refused>
    requires callable { F.IsAlwaysCallable read }
    requires room { length table.old ≤ most_kinds }
    ensures { (num : List ℕ → _) (test : _ → Bool) (reads : ℕ → _) (least most : ℕ) → Coded signed num test reads least most
        → ((v : ℕ) (r : _) → v < 2 ^ 32 → F.post read v r → r ≡ ranged reads least most v)
        → after (read_line line (shaped (number_of_word word) num (length table.old)) (split 10 (drop at text.now))) (λ r. ask (all test r.0) why line (fine r)) ≡ numbers_got result table.new text.now }
{
    let mut row = [0; Kit::KINDS];
    let row = &mut row[..table.len()];
    let next = due_line(text, at, line, word, signed, row)?;
    if !stored(row, table, read) {
        return Err(why.at(line));
    }
    Ok(next)
}

// The size that a number of a row stands for, if it is in range.
fn size_from(number: u32) -> Option<u16>
    ensures { result ≡ ranged (λ v. v) 1 most_size number }
{
    u16::try_from(number)
        .ok()
        .filter(|size| (1..=Kit::SIZE).contains(size))
}

// Line 2: a size for each kind.
pub fn size_line(text: &[u8], at: usize, n: usize, sizes: &mut [u16]) -> Result<usize, Refused>
    requires { (n ≤ most_kinds) × (n ≤ length sizes.old) }
    ensures { size_line n (split 10 (drop at text.now)) ≡ numbers_got result (take n sizes.new) text.now }
{
    numbers_line(
        text,
        at,
        2,
        Word::Size,
        false,
        Refusal::Size,
        &mut sizes[..n],
        size_from,
    )
}

// The cost that stands in a row by its distance above -CAP, if it is in range; then the casts lose nothing.
fn cost_from(code: u32) -> Option<i32>
    ensures { result ≡ ranged cost_from (cap - most_cost) (cap + most_cost) code }
{
    const MOST: u32 = Kit::COST as u32;
    (texts::CAP - MOST..=texts::CAP + MOST)
        .contains(&code)
        .then(|| code as i32 - texts::CAP as i32)
}

// Line 3: a cost for each kind, which may be negative.
pub fn cost_line(text: &[u8], at: usize, n: usize, costs: &mut [i32]) -> Result<usize, Refused>
    requires { (n ≤ most_kinds) × (n ≤ length costs.old) }
    ensures { cost_line n (split 10 (drop at text.now)) ≡ numbers_got result (take n costs.new) text.now }
{
    numbers_line(
        text,
        at,
        3,
        Word::Cost,
        true,
        Refusal::Cost,
        &mut costs[..n],
        cost_from,
    )
}

// The count that a number of a row stands for, if it is in range; then the cast loses nothing.
fn count_from(number: u32) -> Option<u16>
    ensures { result ≡ ranged (λ v. v) 0 most_count number }
{
    (number <= Kit::COUNT).then(|| number as u16)
}

// The counts of a swap or of a load, where `used` of `room` records of `width` counts stand already: a lent buffer does not know how much
// of it is in use.
pub fn word_line(
    text: &[u8],
    at: usize,
    line: usize,
    word: Word,
    width: usize,
    used: usize,
    room: usize,
    table: &mut [u16],
) -> Result<Option<usize>, Refused>
    requires { (width ≤ 24) × (used ≤ room) × (room * width ≤ length table.old) }
    ensures { Recorded line (number_of_word word) width used at text.now table.old (counts_line line (number_of_word word) width used room (split 10 (drop at text.now))) result table.new }
{
    let mut row = [0; 2 * Kit::KINDS];
    let row = &mut row[..width];
    let Some(next) = shapes::word_line_at(text, at, line, word, false, row)? else {
        return Ok(None);
    };
    if room <= used {
        return Err(Refusal::Length.at(line));
    }
    if !stored(row, &mut table[used * width..], count_from) {
        return Err(Refusal::BigCount.at(line));
    }
    Ok(Some(next))
}

// The same by the number of a word: where it is no word's, each line has another word.
#[tactic(auto, using(crate::proofs::Answers::none_counted, shapes::proofs::Unnamed::none_begun))]
pub fn counts_line(
    text: &[u8],
    at: usize,
    line: usize,
    word: u8,
    width: usize,
    used: usize,
    room: usize,
    table: &mut [u16],
) -> Result<Option<usize>, Refused>
    requires { (width ≤ 24) × (used ≤ room) × (room * width ≤ length table.old) }
    ensures { Recorded line word width used at text.now table.old (counts_line line word width used room (split 10 (drop at text.now))) result table.new }
{
    match Word::of(word) {
        Some(word) => word_line(text, at, line, word, width, used, room, table),
        None => Ok(None),
    }
}

// The line of a swap: its sides differ, and have one grade.
pub fn swap_line(
    text: &[u8],
    at: usize,
    line: usize,
    sizes: &[u16],
    used: usize,
    swaps: &mut [u16],
) -> Result<Option<usize>, Refused>
    requires { KindsFine (length sizes.now) × (used ≤ most_swaps) × (most_swaps * (2 * length sizes.now) ≤ length swaps.old) }
    ensures { Recorded line 3 (2 * length sizes.now) used at text.now swaps.old (swap_line line (length sizes.now) sizes.now used (split 10 (drop at text.now))) result swaps.new }
{
    let width = 2 * sizes.len();
    let Some(next) = word_line(text, at, line, Word::Swap, width, used, Kit::SWAPS, swaps)? else {
        return Ok(None);
    };
    sides::tested(sizes, swaps, used, line)?;
    Ok(Some(next))
}

// A sheet read from its text into lent buffers: one pass over the text, line by line, and one over each buffer at the end.
#![tactic(auto)]

ghost use Rattle.std.specs.Prelude.{◌≡◌, [], ◌+◌, ◌*◌, ◌≤◌, IfOk, length, take, drop};
ghost use Rattle.terms.specs.Limits.{KindsFine, most_kinds, most_swaps, most_loads};
ghost use Rattle.shapes.specs.Split.{split};
ghost use Rattle.sheet.specs.Sheet.{swap_room, load_room, load_lines, swap_lines, sheet_of, Reads};
ghost use Rattle.sheet.specs.Parts.{swaps_got, loads_got, Within, rest_got, RestWithin, read_got, ReadWithin, Ended};

use lines::Word;
use terms::{Kit, Refusal, Refused};

// What a sheet has: n, B, and how many swaps and loads.
#[derive(Clone, Copy, Default)]
pub struct Counts {
    pub kinds: usize,
    pub bound: usize,
    pub swaps: usize,
    pub loads: usize,
}

// Lines of one word: how many there are, and the place of the line after them.
#[derive(Clone, Copy)]
pub struct Block {
    pub count: usize,
    pub next: usize,
}

// How many swaps and loads the lines from the fourth on have.
#[derive(Clone, Copy)]
pub struct Rest {
    pub swaps: usize,
    pub loads: usize,
}

// The swap lines, up to the first line of another word. The walk goes by the places that the lines hand back; the count is the answer.
fn read_swaps(text: &[u8], from: usize, sizes: &[u16], swaps: &mut [u16]) -> Result<Block, Refused>
    requires { KindsFine (length sizes.now) × (length swaps.old ≡ swap_room) }
    ensures { Within most_swaps result × (swap_lines (length sizes.now) sizes.now 0 [] (split 10 (drop from text.now)) ≡ swaps_got (length sizes.now) result swaps.new text.now) }
{
    let mut at = from;
    let mut used = 0;
    while at < text.len() {
        let Some(next) = records::swap_line(text, at, 4 + used, sizes, used, swaps)? else {
            break;
        };
        at = next;
        used += 1;
    }
    Ok(Block {
        count: used,
        next: at,
    })
}

// The load lines, up to the end of the text, the first of them on line `first`: how many there are. A loop of its own beside read_swaps:
// another word ends the swaps, and is refused among the loads.
fn read_loads(
    text: &[u8],
    from: usize,
    first: usize,
    n: usize,
    loads: &mut [u16],
) -> Result<usize, Refused>
    requires { (n ≤ most_kinds) × (first ≤ 68) × (length loads.old ≡ load_room) }
    ensures { IfOk result (λ count. count ≤ most_loads) × (load_lines n first 0 [] (split 10 (drop from text.now)) ≡ loads_got n result loads.new) }
{
    let mut at = from;
    let mut used = 0;
    while at < text.len() {
        let line = first + used;
        let next = records::word_line(text, at, line, Word::Load, n, used, Kit::LOADS, loads)?;
        at = next.ok_or(Refusal::BadLine.at(line))?;
        used += 1;
    }
    Ok(used)
}

// The lines from the fourth on.
fn read_rest(
    text: &[u8],
    at: usize,
    sizes: &[u16],
    swaps: &mut [u16],
    loads: &mut [u16],
) -> Result<Rest, Refused>
    requires { KindsFine (length sizes.now) × (length swaps.old ≡ swap_room) × (length loads.old ≡ load_room) }
    ensures { RestWithin result × (swap_lines (length sizes.now) sizes.now 0 [] (split 10 (drop at text.now)) ≡ rest_got (length sizes.now) result swaps.new loads.new) }
{
    let swap_block = read_swaps(text, at, sizes, swaps)?;
    let first = 4 + swap_block.count;
    let load_count = read_loads(text, swap_block.next, first, sizes.len(), loads)?;
    Ok(Rest {
        swaps: swap_block.count,
        loads: load_count,
    })
}

// The text's lines in their sequence. The four buffers go side by side, as the C interface lends them: a struct of them would be made
// only to be taken apart, and to make arrays of them would take four conversions, each with its refusal, where one test does.
fn read_text(
    text: &[u8],
    sizes: &mut [u16],
    costs: &mut [i32],
    swaps: &mut [u16],
    loads: &mut [u16],
) -> Result<Counts, Refused>
    requires { (length sizes.old ≡ most_kinds) × (length costs.old ≡ most_kinds) × (length swaps.old ≡ swap_room) × (length loads.old ≡ load_room) }
    ensures { ReadWithin result × (sheet_of text.now ≡ read_got result sizes.new costs.new swaps.new loads.new) }
{
    let first = records::kit_line(text)?;
    let kit = first.kit;
    let second = records::size_line(text, first.next, kit.kinds, sizes)?;
    let third = records::cost_line(text, second, kit.kinds, costs)?;
    let rest = read_rest(text, third, &sizes[..kit.kinds], swaps, loads)?;
    Ok(Counts {
        kinds: kit.kinds,
        bound: kit.bound,
        swaps: rest.swaps,
        loads: rest.loads,
    })
}

// Every buffer holds its records and then 0: a refusal keeps nothing.
fn finish(
    read: Result<Counts, Refused>,
    sizes: &mut [u16],
    costs: &mut [i32],
    swaps: &mut [u16],
    loads: &mut [u16],
) -> Result<Counts, Refused>
    requires { ReadWithin read × (length sizes.old ≡ most_kinds) × (length costs.old ≡ most_kinds) × (length swaps.old ≡ swap_room) × (length loads.old ≡ load_room) }
    ensures { Ended read sizes.old costs.old swaps.old loads.old (record { answer = result; sizes = sizes.new; costs = costs.new; swaps = swaps.new; loads = loads.new }) }
{
    let kept = read.unwrap_or_default();
    let n = kept.kinds;
    sizes[n..].fill(0);
    costs[n..].fill(0);
    swaps[kept.swaps * (2 * n)..].fill(0);
    loads[kept.loads * n..].fill(0);
    read
}

// Reads a sheet: a refusal of a line brings its line, and leaves every buffer 0.
pub fn read_sheet(
    text: &[u8],
    sizes: &mut [u16],
    costs: &mut [i32],
    swaps: &mut [u16],
    loads: &mut [u16],
) -> Result<Counts, Refused>
    ensures { Reads text.now sizes.old costs.old swaps.old loads.old (record { answer = result; sizes = sizes.new; costs = costs.new; swaps = swaps.new; loads = loads.new }) }
{
    if sizes.len() != Kit::KINDS
        || costs.len() != Kit::KINDS
        || swaps.len() != Kit::SWAPS * (2 * Kit::KINDS)
        || loads.len() != Kit::LOADS * Kit::KINDS
    {
        return Err(Refusal::Length.at(0));
    }
    if Kit::TEXT < text.len() {
        return finish(Err(Refusal::LongText.at(0)), sizes, costs, swaps, loads);
    }
    finish(
        read_text(text, sizes, costs, swaps, loads),
        sizes,
        costs,
        swaps,
        loads,
    )
}

// The calls of the library for programs in other languages: plain numbers and slices (a pointer, then how many elements).
// No call has a `requires`; include/kitsettle.h says the same in C.
#![tactic(auto)]

ghost use Rattle.std.specs.Prelude.{◌≡◌};
ghost use Rattle.doors.specs.Answers.{EarlierIs, CompleteIs, SettleIs, ReadIs};
ghost use Rattle.doors.specs.Answers.{answer_number, answer_place};

use terms::{Kit, Refused};

// 0, or the refusal number.
fn answer_number<T: Copy>(answer: Result<T, Refused>) -> u32
    ensures { result ≡ answer_number answer }
{
    match answer {
        Ok(_) => 0,
        Err(refused) => u32::from(refused.why),
    }
}

// The place of the refusal, 0 where there is none.
fn answer_place<T: Copy>(answer: Result<T, Refused>) -> usize
    ensures { result ≡ answer_place answer }
{
    match answer {
        Ok(_) => 0,
        Err(refused) => refused.place,
    }
}

// 1 or 2, the load that comes first; 0 where the input is refused. It asks again what compare::earlier asks: C cannot be handed the
// reference that tells which one came first.
#[unsafe(no_mangle)]
pub extern "C" fn kitsettle_earlier(
    kinds: usize,
    costs: &[i32],
    first: &[u16],
    second: &[u16],
) -> u32
    ensures { EarlierIs kinds costs.now first.now second.now result }
{
    if !compare::pair_fine(kinds, costs, first, second) {
        return 0;
    }
    if compare::comes_before(costs, second, first) {
        return 2;
    }
    1
}

// 0 and the number of rows at `place`; or the refusal number, with its place there.
#[unsafe(no_mangle)]
#[tactic(auto, using(crate::proofs::Places::rows_or_place))]
pub extern "C" fn kitsettle_complete(
    kinds: usize,
    bound: usize,
    sizes: &[u16],
    costs: &[i32],
    swaps: &[u16],
    rules: &mut [u16],
    place: &mut usize,
) -> u32
    ensures { CompleteIs kinds bound sizes.now costs.now swaps.now rules.old result rules.new place.new }
{
    let answer = complete::complete(Kit { kinds, bound }, sizes, costs, swaps, rules);
    *place = answer.unwrap_or(answer_place(answer));
    answer_number(answer)
}

// 0, and the load is settled; or the refusal number, with its place at `place`.
#[unsafe(no_mangle)]
pub extern "C" fn kitsettle_settle(
    kinds: usize,
    bound: usize,
    sizes: &[u16],
    costs: &[i32],
    rules: &[u16],
    rows: usize,
    load: &mut [u16],
    place: &mut usize,
) -> u32
    ensures { SettleIs kinds bound sizes.now costs.now rules.now rows load.old result load.new place.new }
{
    let answer = settle::settle(Kit { kinds, bound }, sizes, costs, rules, rows, load);
    *place = answer_place(answer);
    answer_number(answer)
}

// 0, the four counts and the buffers; or the refusal number, its line, and four counts of 0.
#[unsafe(no_mangle)]
pub extern "C" fn kitsettle_read(
    text: &[u8],
    sizes: &mut [u16],
    costs: &mut [i32],
    swaps: &mut [u16],
    loads: &mut [u16],
    kinds: &mut usize,
    bound: &mut usize,
    swap_count: &mut usize,
    load_count: &mut usize,
    line: &mut usize,
) -> u32
    ensures { ReadIs text.now sizes.old costs.old swaps.old loads.old result sizes.new costs.new swaps.new loads.new (record { kinds = kinds.new; bound = bound.new; swaps = swap_count.new; loads = load_count.new }) line.new }
{
    let answer = sheet::read_sheet(text, sizes, costs, swaps, loads);
    let counts = answer.unwrap_or_default();
    *kinds = counts.kinds;
    *bound = counts.bound;
    *swap_count = counts.swaps;
    *load_count = counts.loads;
    *line = answer_place(answer);
    answer_number(answer)
}

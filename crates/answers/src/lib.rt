// What the program writes for a sheet: the rule lines of the finished table, then a line for each load, or the refusal. Each function
// asks for the room of the longest output, since it hands the one paper on.
#![tactic(auto)]

ghost use Rattle.std.specs.Prelude.{ℕ, List, ◌+◌, ◌/◌, ◌≤◌, ◌≡◌, length, Ok};
ghost use Rattle.terms.specs.Limits.{most_loads, most_text};
ghost use Rattle.terms.specs.Refusals.{number_of};
ghost use Rattle.io.specs.Counts.{IsPrefixLen};
ghost use Rattle.print.specs.Lines.{StoredAt};
ghost use Rattle.report.specs.Report.{Written};
ghost use Rattle.answers.specs.Answer.{Show, told_by, Answer, out_most, Counted};

use print::{Page, Paper};
use settle::Table;
use sheet::Counts;
use terms::{Kit, Refusal};

// How many counts the swaps of a sheet have at most.
const SWAP_ROOM: usize = Kit::SWAPS * 2 * Kit::KINDS;

// How many counts its loads have at most.
const LOAD_ROOM: usize = Kit::LOADS * Kit::KINDS;

// How many counts the rows of its table have at most.
const RULE_ROOM: usize = Kit::ROWS * 2 * Kit::KINDS;

// The number of a refusal as the printer takes it: a refusal gives a u32, from which there is no `From` to usize.
fn number_of(why: Refusal) -> usize
    ensures { result ≡ number_of why }
{
    u32::from(why) as usize
}

// The lines of a sheet that was read: the table's rules and the loads, or the refusal of the sheet's swaps. `rules` is the room that is
// lent.
fn show<P: Paper>(
    out: &mut P,
    kit: Kit,
    sizes: &[u16],
    costs: &[i32],
    swaps: &[u16],
    rules: &mut [u16],
    loads: &[u16],
    first: usize,
)
    requires { (length loads.now / kit.kinds ≤ most_loads) × (first ≤ most_text) × (P.place out.old + out_most ≤ P.room out.old) }
    ensures written { Written P.stored (Show kit.kinds kit.bound sizes.now costs.now swaps.now rules.old loads.now (length loads.now / kit.kinds) first) out.old out.new }
    ensures upper_bound { P.place out.new ≤ P.place out.old + out_most }
{
    match complete::complete(kit, sizes, costs, swaps, rules) {
        Ok(rows) => {
            let table = Table {
                kit,
                sizes,
                costs,
                rules,
                rows,
            };
            report::rule_lines(out, &table);
            report::load_lines(out, &table, loads, first);
        }
        Err(refused) => print::refused_line(out, number_of(refused.why), 0),
    }
}

// The lines of a sheet by the reader's counts and buffers. 256 rows are lent for the table.
fn sheet_lines<P: Paper>(
    out: &mut P,
    counts: Counts,
    sizes: &[u16; Kit::KINDS],
    costs: &[i32; Kit::KINDS],
    swaps: &[u16; SWAP_ROOM],
    loads: &[u16; LOAD_ROOM],
)
    requires { Counted counts × (P.place out.old + out_most ≤ P.room out.old) }
    ensures written { Written P.stored (told_by (Ok counts) (record { answer = Ok counts; sizes = sizes.now; costs = costs.now; swaps = swaps.now; loads = loads.now })) out.old out.new }
    ensures upper_bound { P.place out.new ≤ P.place out.old + out_most }
{
    let Counts { kinds, bound, .. } = counts;
    let first = 4 + counts.swaps;
    let used = counts.swaps * (2 * kinds);
    let lent = Kit::ROWS * (2 * kinds);
    let mut rules = [0u16; RULE_ROOM];
    show(
        out,
        Kit { kinds, bound },
        &sizes[..kinds],
        &costs[..kinds],
        &swaps[..used],
        &mut rules[..lent],
        &loads[..counts.loads * kinds],
        first,
    );
}

// Everything that the program writes for a text.
pub fn answer<P: Paper>(text: &[u8], out: &mut P)
    requires { P.place out.old + out_most ≤ P.room out.old }
    ensures written { Written P.stored (Answer text.now) out.old out.new }
    ensures upper_bound { P.place out.new ≤ P.place out.old + out_most }
    ensures in_room { P.place out.new ≤ P.room out.new }
{
    let mut sizes = [0u16; Kit::KINDS];
    let mut costs = [0i32; Kit::KINDS];
    let mut swaps = [0u16; SWAP_ROOM];
    let mut loads = [0u16; LOAD_ROOM];
    match sheet::read_sheet(text, &mut sizes, &mut costs, &mut swaps, &mut loads) {
        Ok(counts) => sheet_lines(out, counts, &sizes, &costs, &swaps, &loads),
        Err(refused) => print::refused_line(out, number_of(refused.why), refused.place),
    }
}

// The same into a slice that is lent, from its start on: how long it is.
pub fn answer_in(text: &[u8], out: &mut [u8]) -> usize
    requires { out_most ≤ length out.old }
    ensures written { (bytes : List ℕ) × Answer text.now bytes × StoredAt bytes 0 out.old result out.new }
    ensures in_buffer { IsPrefixLen result out.new }
{
    let mut page = Page::over(out, 0);
    answer(text, &mut page);
    page.at
}

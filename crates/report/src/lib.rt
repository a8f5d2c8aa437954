// The lines of a rule table, and the lines of loads that are settled by it.
#![tactic(auto)]

ghost use Rattle.std.specs.Prelude.{◌+◌, ◌*◌, ◌/◌, ◌^◌, ◌<◌, ◌≤◌, ◌≡◌, length};
ghost use Rattle.terms.specs.Flat.{row_at};
ghost use Rattle.report.specs.Report.{row_line, rule_lines, row_most, rows_in, Holds, ReadyTable, LineBy, LinesBy, Written, load_most};

use print::Paper;
use settle::Table;
use terms::{Kit, Refusal};

// The line of row r.
fn rule_at<P: Paper>(out: &mut P, table: &Table<'_>, r: usize)
    requires lengths { Holds table.now (r + 1) }
    requires has_room { P.place out.old + row_most ≤ P.room out.old }
    ensures stored { P.stored (row_line table.now.sizes.now (row_at table.now.kit.kinds table.now.rules.now r)) out.old out.new }
    ensures upper_bound { P.place out.new ≤ P.place out.old + row_most }
{
    let kinds = table.kit.kinds;
    let grade = loads::grade_of(table.sizes, loads::left_of(kinds, table.rules, r));
    let from = r * (2 * kinds);
    print::rule_line(out, grade, &table.rules[from..from + 2 * kinds]);
}

// The lines of the rows in use. A row is found by its number: a kit of no kinds is allowed here, for which `chunks_exact` would panic.
pub fn rule_lines<P: Paper>(out: &mut P, table: &Table<'_>)
    requires lengths { Holds table.now table.now.rows }
    requires has_room { P.place out.old + table.now.rows * row_most ≤ P.room out.old }
    ensures stored { P.stored (rule_lines table.now.sizes.now (rows_in table.now)) out.old out.new }
    ensures upper_bound { P.place out.new ≤ P.place out.old + table.now.rows * row_most }
{
    for r in 0..table.rows {
        rule_at(out, table, r);
    }
}

// The line of a load, which stands on the given line of the sheet.
fn load_line<P: Paper>(out: &mut P, table: &Table<'_>, load: &[u16], line: usize)
    requires ready { ReadyTable table.now × (length load.now ≡ table.now.kit.kinds) }
    requires has_room { P.place out.old + load_most ≤ P.room out.old }
    ensures written { Written P.stored (LineBy table.now line load.now) out.old out.new }
    ensures upper_bound { P.place out.new ≤ P.place out.old + load_most }
{
    if table.kit.bound < loads::grade_of(table.sizes, load) {
        // from u32 to usize there is no `From`
        print::refused_line(out, u32::from(Refusal::OverBound) as usize, line);
        return;
    }
    let mut counts = [0u16; Kit::KINDS];
    let settled = &mut counts[..table.kit.kinds];
    settled.copy_from_slice(load);
    table.settle_proper(settled);
    print::done_line(out, settled);
}

// The lines of loads, of which the first stands on the given line of the sheet.
pub fn load_lines<P: Paper>(out: &mut P, table: &Table<'_>, loads: &[u16], first: usize)
    requires ready { ReadyTable table.now × (first + length loads.now / table.now.kit.kinds < 2 ^ 64) }
    requires has_room { P.place out.old + (length loads.now / table.now.kit.kinds) * load_most ≤ P.room out.old }
    ensures written { Written P.stored (LinesBy table.now loads.now first (length loads.now / table.now.kit.kinds)) out.old out.new }
    ensures upper_bound { P.place out.new ≤ P.place out.old + (length loads.now / table.now.kit.kinds) * load_most }
{
    for (i, load) in loads.chunks_exact(table.kit.kinds).enumerate() {
        load_line(out, table, load, first + i);
    }
}

// The lines that the program prints, each stored on a paper: a vector of fixed room, or a lent slice.
#![tactic(auto)]

ghost use Rattle.std.specs.Prelude.{◌≡◌, ◌+◌, ◌≤◌, length};
ghost use Rattle.print.specs.Lines.{digits, field, counts_end, Room, rule_line, done_line, refused_line};
ghost use Rattle.print.specs.Lines.{rule_most, done_most, refused_most};

mod paper;

use itoa::Buffer;
pub use paper::{Page, Paper};

// The number's digits, one by one: they are few, and a call to copy a byte or two takes longer.
fn number<P: Paper>(out: &mut P, n: usize)
    requires { Room (digits n) (P.place out.old) (P.room out.old) }
    ensures stored { P.stored (digits n) out.old out.new }
    ensures len { P.place out.new ≡ P.place out.old + length (digits n) }
{
    let mut digits = Buffer::new();
    let text = digits.format(n).as_bytes();
    for k in 0..text.len() {
        out.push(text[k]);
    }
}

// A tab and the number.
fn field<P: Paper>(out: &mut P, n: usize)
    requires { Room (field n) (P.place out.old) (P.room out.old) }
    ensures stored { P.stored (field n) out.old out.new }
    ensures len { P.place out.new ≡ P.place out.old + length (field n) }
{
    out.push(b'\t');
    number(out, n);
}

// The counts, and the end of the line.
fn end_line<P: Paper>(out: &mut P, counts: &[u16])
    requires { Room (counts_end counts.now) (P.place out.old) (P.room out.old) }
    ensures stored { P.stored (counts_end counts.now) out.old out.new }
    ensures len { P.place out.new ≡ P.place out.old + length (counts_end counts.now) }
{
    for count in counts {
        field(out, usize::from(*count));
    }
    out.push(b'\n');
}

// A row of a rule table, head then tail, after its head's grade.
#[tactic(auto, using(crate::proofs::Lengths::field_most, crate::proofs::Lengths::counts_end_most))]
pub fn rule_line<P: Paper>(out: &mut P, grade: usize, row: &[u16])
    requires { P.place out.old + rule_most (length row.now) ≤ P.room out.old }
    ensures stored { P.stored (rule_line grade row.now) out.old out.new }
    ensures upper_bound { P.place out.new ≤ P.place out.old + rule_most (length row.now) }
{
    out.append(b"rule");
    field(out, grade);
    end_line(out, row);
}

// A settled load.
#[tactic(auto, using(crate::proofs::Lengths::counts_end_most))]
pub fn done_line<P: Paper>(out: &mut P, load: &[u16])
    requires { P.place out.old + done_most (length load.now) ≤ P.room out.old }
    ensures stored { P.stored (done_line load.now) out.old out.new }
    ensures upper_bound { P.place out.new ≤ P.place out.old + done_most (length load.now) }
{
    out.append(b"done");
    end_line(out, load);
}

// A refusal: its number, and the line of the sheet. The number may be any, as the contract says; a reason would ask more of the caller.
#[tactic(auto, using(crate::proofs::Lengths::field_most))]
pub fn refused_line<P: Paper>(out: &mut P, why: usize, line: usize)
    requires { P.place out.old + refused_most ≤ P.room out.old }
    ensures stored { P.stored (refused_line why line) out.old out.new }
    ensures upper_bound { P.place out.new ≤ P.place out.old + refused_most }
{
    out.append(b"refused");
    field(out, why);
    field(out, line);
    end_line(out, &[]);
}

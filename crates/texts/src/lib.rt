// Numbers in text, by functions on a slice and a place; the thin reader over them is lines::LineReader. Decimal, of any length, with no
// leading zero. A number above every limit is held at CAP.
#![tactic(auto)]

ghost use Rattle.std.specs.Prelude.{◌≡◌, true, ◌+◌, ◌≤◌, ◌<◌, length, drop, IfSome, option_copied};
ghost use Rattle.std.specs.List.{position_from};
ghost use Rattle.texts.specs.Number.{cap, is_digit, ends_field, plain, ended, more, run_from, number_at};

pub const CAP: u32 = 10_000_000;

pub const TAB: u8 = b'\t';

pub const FEED: u8 = b'\n';

// A number of a text: its value, and the place of the tab or line feed that ends its field.
#[derive(Clone, Copy, PartialEq, Eq, Debug)]
pub struct Num {
    pub value: u32,
    pub next: usize,
}

pub fn is_digit(b: u8) -> bool
    ensures { result ≡ is_digit b }
{
    b.is_ascii_digit()
}

// A field ends where a tab or a line feed stands.
pub fn ends_field(b: u8) -> bool
    ensures { result ≡ ends_field b }
{
    b == TAB || b == FEED
}

// One digit more, held at CAP.
fn more_by(value: u32, b: u8) -> u32
    requires capped { value ≤ cap }
    requires digit { is_digit b ≡ true }
    ensures { result ≡ more value b }
{
    (value * 10 + u32::from(b - b'0')).min(CAP)
}

// How many bytes stand before the first tab or line feed, if there is one.
fn end_of(rest: &[u8]) -> Option<usize>
    ensures place { result ≡ position_from ends_field 0 rest.now }
    ensures inside { IfSome result (λ n. n < length rest.now) }
{
    rest.iter().position(|b| ends_field(*b))
}

// The bytes of the field at a place, if a tab or a line feed ends it.
#[tactic(auto, using(crate::proofs::Runs::past_end, crate::proofs::Runs::no_end, crate::proofs::Runs::an_end))]
pub fn field(s: &[u8], at: usize) -> Option<&[u8]>
    ensures bytes { option_copied result ≡ ended (drop at s.now) }
    ensures inside { IfSome result (λ f. at + length f.now < length s.now) }
{
    let rest = s.get(at..)?;
    let long = end_of(rest)?;
    Some(&rest[..long])
}

// Something stands there, and no 0 in front of something.
fn is_plain(field: &[u8]) -> bool
    ensures { result ≡ plain field.now }
{
    !matches!(field, [] | [b'0', _, ..])
}

// What the digits from a place to the end of its field are worth, in one pass: it ends at the first byte that is no digit, however long
// the field is. To look for the end of the field first, as `field` does, costs the length of a text that is then refused.
#[tactic(auto, using(crate::proofs::Runs::run_past, crate::proofs::Runs::run_ends, crate::proofs::Runs::run_bad, crate::proofs::Runs::run_on, crate::proofs::Runs::run_cut, crate::proofs::Runs::rest_is))]
fn run_at(s: &[u8], at: usize) -> Option<Num>
    ensures { result ≡ run_from 0 at (drop at s.now) }
{
    let rest = s.get(at..)?;
    let mut value = 0;
    for (i, &b) in rest.iter().enumerate() {
        if ends_field(b) {
            return Some(Num {
                value,
                next: at + i,
            });
        }
        if !is_digit(b) {
            return None;
        }
        value = more_by(value, b);
    }
    None
}

// The number that is the field at a place.
#[tactic(auto, using(crate::proofs::Runs::none_there, crate::proofs::Runs::starts_before, crate::proofs::Runs::ends_within, crate::proofs::Runs::ill, crate::proofs::Runs::well))]
pub fn number(s: &[u8], at: usize) -> Option<Num>
    ensures { result ≡ number_at s.now at }
{
    let num = run_at(s, at)?;
    is_plain(&s[at..num.next]).then_some(num)
}

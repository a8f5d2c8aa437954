// The shape of a whole line of a sheet: its word, as many numbers as are due, the line feed.
#![tactic(auto)]

ghost use Rattle.std.specs.Prelude.{◌≡◌, not, length, drop};
ghost use Rattle.lines.specs.Fields.{field_at, number_of_word};
ghost use Rattle.shapes.specs.Split.{split, shaped, read_line};
ghost use Rattle.shapes.specs.Rows.{amount_of, after_feed, after_word, code_of, row_got, step_got, is_other, numbers_got, begun_in};

use lines::{Field, Word};
use terms::{Refusal, Refused};
use texts::Num;

// The number that a row keeps of the field at a place. With `signed` that is its distance above -CAP; without, a minus is misshapen.
fn amount_at(text: &[u8], at: usize, signed: bool) -> Option<Num>
    ensures { result ≡ amount_of signed (field_at text.now at) }
{
    match lines::field_from(text, at)? {
        Field::Number(v, next) if signed => Some(Num {
            value: texts::CAP + v,
            next,
        }),
        Field::Number(value, next) => Some(Num { value, next }),
        Field::Minus(v, next) if signed => Some(Num {
            value: texts::CAP - v,
            next,
        }),
        _ => None,
    }
}

// The place after the field, if it is the line feed.
#[tactic(auto, using(crate::proofs::Turns::is_fed))]
fn after_feed(text: &[u8], at: usize) -> Option<usize>
    ensures { result ≡ after_feed (drop at text.now) at }
{
    match lines::field_from(text, at)? {
        Field::Feed(next) => Some(next),
        _ => None,
    }
}

// The place after the field, if it is the word.
#[tactic(auto, using(crate::proofs::Words::no_field, crate::proofs::Words::other_field, crate::proofs::Words::word_field))]
fn after_word(text: &[u8], at: usize, word: Word) -> Option<usize>
    ensures { result ≡ after_word (number_of_word word) (drop at text.now) at }
{
    let Field::Word(found, next) = lines::field_from(text, at)? else {
        return None;
    };
    (found == word).then_some(next)
}

// Reads as many numbers as `row` has places, and the line feed after them: the place of the next line.
fn numbers_at(
    text: &[u8],
    at: usize,
    line: usize,
    signed: bool,
    row: &mut [u32],
) -> Result<usize, Refused>
    ensures { row_got line signed (length row.old) (drop at text.now) ≡ numbers_got result row.new text.now }
{
    let mut place = at;
    for cell in row.iter_mut() {
        let Some(num) = amount_at(text, place, signed) else {
            return Err(Refusal::BadLine.at(line));
        };
        *cell = num.value;
        place = num.next;
    }
    after_feed(text, place).ok_or(Refusal::BadLine.at(line))
}

// A whole line with the word and as many numbers as `row` has places: the place of the next line, or None where another word stands.
// `signed` is a yes or no, as the definition `code_of` has it: an enum of two cases would say no more.
pub fn word_line_at(
    text: &[u8],
    at: usize,
    line: usize,
    word: Word,
    signed: bool,
    row: &mut [u32],
) -> Result<Option<usize>, Refused>
    ensures { (is_other result ≡ not (begun_in (number_of_word word) (drop at text.now)))
        × (read_line line (shaped (number_of_word word) (code_of signed) (length row.old)) (split 10 (drop at text.now)) ≡ step_got line result row.new text.now) }
{
    let Some(place) = after_word(text, at, word) else {
        return Ok(None);
    };
    let next = numbers_at(text, place, line, signed, row)?;
    Ok(Some(next))
}

// The same by the number of a word: where it is no word's, each line has another word.
#[tactic(auto, using(crate::proofs::Unnamed::none_begun, crate::proofs::Unnamed::none_read))]
pub fn line_at(
    text: &[u8],
    at: usize,
    line: usize,
    word: u8,
    signed: bool,
    row: &mut [u32],
) -> Result<Option<usize>, Refused>
    ensures { (is_other result ≡ not (begun_in word (drop at text.now)))
        × (read_line line (shaped word (code_of signed) (length row.old)) (split 10 (drop at text.now)) ≡ step_got line result row.new text.now) }
{
    match Word::of(word) {
        Some(word) => word_line_at(text, at, line, word, signed, row),
        None => Ok(None),
    }
}

// A line reader that keeps the caller's bytes and its place. What stands at a place of a line is the word that begins it, a tab
// with a number, or the line feed; `field_at` finds it, on a plain slice.
#![tactic(auto)]

ghost use Rattle.std.specs.Prelude.{MatchOption, ◌≡◌, drop};
ghost use Rattle.lines.specs.Fields.{number_of_word, which_word, word_in, minus_in, number_in, field_at};

// The words that begin a line.
#[derive(Clone, Copy, PartialEq, Eq, Debug)]
pub enum Word {
    Kit,
    Size,
    Cost,
    Swap,
    Load,
}

impl Word {
    // The word of a number, if it is a word's.
    #[tactic(auto, using(crate::proofs::Named::no_word))]
    pub fn of(number: u8) -> Option<Word>
        ensures { MatchOption result ((word : _) → number_of_word word ≡ number → ⊥) (λ word. number_of_word word ≡ number) }
    {
        match number {
            0 => Some(Word::Kit),
            1 => Some(Word::Size),
            2 => Some(Word::Cost),
            3 => Some(Word::Swap),
            4 => Some(Word::Load),
            _ => None,
        }
    }
}

// Each with the place after it. `Minus` is a number other than 0 with a minus before it.
#[derive(Clone, Copy, PartialEq, Eq, Debug)]
pub enum Field {
    Word(Word, usize),
    Number(u32, usize),
    Minus(u32, usize),
    Feed(usize),
}

#[derive(Clone, Copy)]
pub struct LineReader<'a> {
    pub text: &'a [u8],
    pub at: usize,
}

impl<'a> LineReader<'a> {
    // A reader over the text, at a place.
    pub fn over(text: &'a [u8], at: usize) -> LineReader<'a>
        ensures { (result.text ≡ text.entry) × (result.at ≡ at) }
    {
        LineReader { text, at }
    }

    // What stands at its place.
    pub fn current(&self) -> Option<Field>
        ensures { result ≡ field_at self.now.text.now self.now.at }
    {
        field_at(self.text, self.at)
    }
}

// Which word a field is.
#[tactic(auto, using(crate::proofs::Reading::word_read, crate::proofs::Reading::no_word))]
fn word_of(field: &[u8]) -> Option<Word>
    ensures { result ≡ which_word field.now }
{
    match field {
        b"kit" => Some(Word::Kit),
        b"size" => Some(Word::Size),
        b"cost" => Some(Word::Cost),
        b"swap" => Some(Word::Swap),
        b"load" => Some(Word::Load),
        _ => None,
    }
}

// The word that is the field at a place. No word has five bytes, so that a longer field is left after so many.
#[tactic(auto, using(crate::proofs::Reading::no_place, crate::proofs::Reading::no_near, crate::proofs::Reading::near_other, crate::proofs::Reading::near_found))]
fn word_at(text: &[u8], at: usize) -> Option<Field>
    ensures { result ≡ word_in (drop at text.now) at }
{
    let rest = text.get(at..)?;
    let field = texts::field(&rest[..rest.len().min(5)], 0)?;
    Some(Field::Word(word_of(field)?, at + field.len()))
}

// A number after a minus: it is not 0.
fn minus_at(text: &[u8], at: usize) -> Option<Field>
    ensures { result ≡ minus_in (drop at text.now) at }
{
    let num = texts::number(text, at)?;
    if num.value == 0 {
        return None;
    }
    Some(Field::Minus(num.value, num.next))
}

// A number, with a minus before it or without.
#[tactic(auto, using(crate::proofs::Reading::past, crate::proofs::Reading::at_minus, crate::proofs::Reading::no_number, crate::proofs::Reading::a_number))]
fn number_at(text: &[u8], at: usize) -> Option<Field>
    ensures { result ≡ number_in (drop at text.now) at }
{
    if *text.get(at)? == b'-' {
        return minus_at(text, at + 1);
    }
    let num = texts::number(text, at)?;
    Some(Field::Number(num.value, num.next))
}

// What stands at a place of a text.
pub fn field_at(text: &[u8], at: usize) -> Option<Field>
    ensures { result ≡ field_at text.now at }
{
    match *text.get(at)? {
        b'\t' => number_at(text, at + 1),
        b'\n' => Some(Field::Feed(at + 1)),
        _ => word_at(text, at),
    }
}

// What stands at a place of a text, by a reader over it: the sheet is read through this.
pub fn field_from(text: &[u8], at: usize) -> Option<Field>
    ensures { result ≡ field_at text.now at }
{
    LineReader::over(text, at).current()
}

// What lines are written on: a vector of fixed room, or a lent slice from a place on.
#![tactic(auto)]

ghost use Rattle.std.specs.Prelude.{◌≡◌, ℕ, ◌+◌, List, [], ◌∷◌, ◌++◌, length};
ghost use Rattle.arrayvec.specs.ArrayVec.{array_vec_len};
ghost use Rattle.print.specs.Lines.{Room, Stored, StoredAt};
ghost use Rattle.print.specs.Storing.{stored_none, stored_then, stored_long, at_none, at_then, at_long};
ghost use Rattle.std.proofs.Common.{refl, ◌∙◌};

use arrayvec::ArrayVec;

// Bytes are stored from the place on, one run after the other; `stored` says of each paper what it then holds.
pub trait Paper {
    // Where the next byte goes.
    ghost place: { Self → ℕ };

    // How many bytes there is room for in all.
    ghost room: { Self → ℕ };

    // The bytes were stored: what was before, and what is after.
    ghost stored: { List ℕ → Self → Self → Type 0 };

    fn push(&mut self, byte: u8)
        requires { Room (byte ∷ []) (place self.old) (room self.old) }
        ensures stored { stored (byte ∷ []) self.old self.new }
        ensures len { place self.new ≡ place self.old + 1 };

    fn append(&mut self, bytes: &[u8])
        requires { Room bytes.now (place self.old) (room self.old) }
        ensures stored { stored bytes.now self.old self.new }
        ensures len { place self.new ≡ place self.old + length bytes.now };

    // Nothing stored changes nothing, and one run stored and then the next is both stored.
    ghost stores_none: { (o : Self) → stored [] o o };

    ghost stores_both: { (a b : List ℕ) (o p q : Self) → stored a o p → stored b p q → stored (a ++ b) o q };

    // The place moves behind the bytes, and the room stays.
    ghost moves_place: { (a : List ℕ) (o p : Self) → stored a o p → place p ≡ place o + length a };

    ghost keeps_room: { (a : List ℕ) (o p : Self) → stored a o p → room p ≡ room o };
}

// The bytes go after all that stand in the vector.
impl<const N: usize> Paper for ArrayVec<u8, N> {
    ghost place = { array_vec_len };

    ghost room = { λ _. N };

    ghost stored = { λ bytes o p. Stored bytes o.items p.items };

    #[inline]
    fn push(&mut self, byte: u8) {
        ArrayVec::push(self, byte);
    }

    #[inline]
    fn append(&mut self, bytes: &[u8]) {
        self.try_extend_from_slice(bytes).unwrap();
    }

    ghost stores_none = { λ o. stored_none o.items };

    ghost stores_both = { λ a b o p q s t. stored_then a b o.items s t };

    ghost moves_place = { λ a o p s. stored_long a o.items s };

    ghost keeps_room = { λ a o p s. refl };
}

// A slice that is lent, whose length may be known only when the program runs, and the place in it where the next byte goes.
#[derive(Drop)]
pub struct Page<'a> {
    pub bytes: &'a mut [u8],
    pub at: usize,
}

impl<'a> Page<'a> {
    pub fn over(bytes: &'a mut [u8], at: usize) -> Page<'a>
        ensures same_reference { result.bytes.ghost_name ≡ bytes.entry.ghost_name }
        ensures same_bytes { result.bytes.now ≡ bytes.old }
        ensures place { result.at ≡ at }
    {
        Page { bytes, at }
    }
}

// Stores the bytes from `at` on, and answers the place after them.
fn store(out: &mut [u8], at: usize, bytes: &[u8]) -> usize
    requires { Room bytes.now at (length out.old) }
    ensures { StoredAt bytes.now at out.old result out.new }
{
    let end = at + bytes.len();
    out[at..end].copy_from_slice(bytes);
    end
}

// The bytes go over those that the slice holds from the place on, and the place moves behind them.
impl Paper for Page<'_> {
    ghost place = { λ p. p.at };

    ghost room = { λ p. length p.bytes.now };

    ghost stored = { λ bytes o p. (p.bytes.ghost_name ≡ o.bytes.ghost_name) × StoredAt bytes o.at o.bytes.now p.at p.bytes.now };

    fn push(&mut self, byte: u8) {
        self.at = store(self.bytes, self.at, &[byte]);
    }

    fn append(&mut self, bytes: &[u8]) {
        self.at = store(self.bytes, self.at, bytes);
    }

    ghost stores_none = { λ o. (refl, at_none o.bytes.now o.at) };

    ghost stores_both = { λ a b o p q s t. (t.0 ∙ s.0, at_then s.1 t.1) };

    ghost moves_place = { λ a o p s. s.1.next };

    ghost keeps_room = { λ a o p s. at_long s.1 };
}

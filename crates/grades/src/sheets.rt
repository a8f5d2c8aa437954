// The sheets that completion reads, each swap with its stamp.

ghost use Rattle.std.specs.Prelude.{◌≡◌, ℕ, ◌*◌, ◌≤◌, ◌<◌, List, length, get_or};
ghost use Rattle.terms.specs.Swaps.{Swap};
ghost use Rattle.terms.specs.Flat.{numbered, swap_at};
ghost use Rattle.growth.specs.Setting.{swap_of};
ghost use Rattle.pairs.specs.Pairs.{NextAbove};

// What the loops of completion read of a sheet, whether the program holds its swaps or they are lent flat.
pub trait StampedSheet: Copy {
    // Its swaps.
    ghost sheet: { Self → List Swap };

    // Their stamps, in the same order.
    ghost stamps: { Self → List ℕ };

    // How many swaps there are.
    fn count(&self) -> usize
        ensures { result ≡ length (sheet self.now) };

    // The stamp of swap k. Apart from its sides: most turns read no more.
    fn stamp(&self, k: usize) -> u16
        requires { k < length (sheet self.now) }
        ensures { result ≡ get_or (stamps self.now) k 0 };

    // The left and the right side of swap k.
    fn sides(&self, k: usize) -> ([u16; 12], [u16; 12])
        requires { k < length (sheet self.now) }
        ensures { (result.0 ≡ (swap_of (sheet self.now) k).left) × (result.1 ≡ (swap_of (sheet self.now) k).right) };

    // The least of the stamps that is above g, or the limit where there is none below it.
    fn next_above(&self, g: usize, limit: usize) -> usize
        requires { g < limit }
        ensures { NextAbove (stamps self.now) g limit result };
}

// A sheet that is lent flat, as many swaps as there are stamps.
#[derive(Clone, Copy)]
pub struct LentSheet<'a> {
    pub swaps: &'a [u16],
    pub stamps: &'a [u16],
    pub ghost whole: { length stamps.now * 24 ≤ length swaps.now },
}

impl StampedSheet for LentSheet<'_> {
    ghost sheet = { λ s. numbered (swap_at 12 s.swaps.now) 0 (length s.stamps.now) };

    ghost stamps = { λ s. s.stamps.now };

    fn count(&self) -> usize {
        self.stamps.len()
    }

    fn stamp(&self, k: usize) -> u16 {
        self.stamps[k]
    }

    fn sides(&self, k: usize) -> ([u16; 12], [u16; 12]) {
        let row = loads::row_of(12, self.swaps, k);
        (twelve(row.head), twelve(row.tail))
    }

    fn next_above(&self, g: usize, limit: usize) -> usize {
        pairs::next_above(self.stamps.iter().copied(), g, limit)
    }
}

// Twelve counts as an array.
pub fn twelve(counts: &[u16]) -> [u16; 12]
    requires { length counts.now ≡ 12 }
    ensures { result ≡ counts.now }
{
    let mut array = [0; 12];
    array.copy_from_slice(counts);
    array
}

// What every call shares: the limits of a kit, and the reasons for which a call refuses.
#![tactic(auto)]

ghost use Rattle.std.specs.Prelude.{◌≡◌};
ghost use Rattle.terms.specs.Refusals.{number_of};

// A kit: how many kinds of part it has, and the bound on a load's grade.
#[derive(Clone, Copy)]
pub struct Kit {
    pub kinds: usize,
    pub bound: usize,
}

impl Kit {
    pub const KINDS: usize = 12;

    pub const BOUND: usize = 1_000;

    pub const SIZE: u16 = 1_000;

    pub const COST: i32 = 1_000_000;

    pub const SWAPS: usize = 64;

    pub const ROWS: usize = 256;

    pub const LOADS: usize = 1_024;

    pub const COUNT: u32 = 65_535;

    pub const TEXT: usize = 65_536;

    pub fn of(kinds: usize, bound: usize) -> Kit
        ensures { (result.kinds ≡ kinds) × (result.bound ≡ bound) }
    {
        Kit { kinds, bound }
    }
}

// Why a call refuses, in the sequence in which the tests go; specs/Refusals.antt has the numbers.
#[derive(Clone, Copy, PartialEq, Eq, Debug)]
pub enum Refusal {
    Kinds,
    Bound,
    Length,
    Size,
    Cost,
    SameSides,
    UnequalGrades,
    NoRoom,
    BadRow,
    OverBound,
    BadLine,
    BigCount,
    LongText,
}

// A refusal: why, and at which row, swap or line; the place is 0 where the reason has none. A number and no Option: C is handed it so.
#[derive(Clone, Copy, PartialEq, Eq, Debug)]
pub struct Refused {
    pub why: Refusal,
    pub place: usize,
}

impl Refusal {
    pub fn at(self, place: usize) -> Refused
        ensures { result ≡ record { why = self; place = place } }
    {
        Refused { why: self, place }
    }
}

// The refusal numbers, for whoever writes one. Each stands beside its case, as in `number_of`: discriminants would say no less.
impl From<Refusal> for u32 {
    ghost from_gives = { λ why number. number ≡ number_of why };

    fn from(why: Refusal) -> u32 {
        match why {
            Refusal::Kinds => 1,
            Refusal::Bound => 2,
            Refusal::Length => 3,
            Refusal::Size => 4,
            Refusal::Cost => 5,
            Refusal::SameSides => 6,
            Refusal::UnequalGrades => 7,
            Refusal::NoRoom => 8,
            Refusal::BadRow => 9,
            Refusal::OverBound => 10,
            Refusal::BadLine => 11,
            Refusal::BigCount => 12,
            Refusal::LongText => 13,
        }
    }
}

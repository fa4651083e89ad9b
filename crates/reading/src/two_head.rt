ghost use Rattle.std.specs.Prelude.{◌≡◌, ◌+◌, ◌^◌, ◌≤◌, ◌+ℤ◌};
ghost use Rattle.code.specs.Limits.{sum_limit};
ghost use Rattle.reading.specs.Kinds.{heads_weight, heads_size, heads_opposite};
ghost use Rattle.std.proofs.Common.{rules};

use crate::Reading;
use std::fmt;

// The two-head kind: a main number and a second one, which decides only where the main numbers are equal.
#[derive(Clone, Copy, PartialEq, Eq, PartialOrd, Ord, Debug)]
pub struct TwoHead {
    pub main: i32,
    pub second: i32,
}

impl TwoHead {
    // The sum, number by number.
    fn plus(self, other: TwoHead) -> TwoHead
        requires { heads_size self + heads_size other ≤ sum_limit }
        ensures weighs { heads_weight result ≡ heads_weight self +ℤ heads_weight other }
        ensures small { heads_size result ≤ heads_size self + heads_size other }
    {
        TwoHead {
            main: self.main + other.main,
            second: self.second + other.second,
        }
    }
}

impl Reading for TwoHead {
    const MAIN_UNIT: u64 = 4294967296;

    const SECOND_UNIT: u64 = 1;

    ghost MAIN_UNIT = { 2 ^ 32 };

    ghost SECOND_UNIT = { 1 };

    ghost weight = { heads_weight };

    ghost size = { heads_size };

    ghost opposite = { heads_opposite };

    ghost main_unit = { Prim.search rules };

    ghost negation = { Prim.search rules };

    // In each kind, since its contract names the constants of that kind, which a body in the trait could not.
    fn units() -> (u64, u64)
        ensures main { (result.0 ≡ 2 ^ 32) × (result.0 ≡ ⟦<TwoHead as Reading>⟧.MAIN_UNIT) }
        ensures second { (result.1 ≡ 1) × (result.1 ≡ ⟦<TwoHead as Reading>⟧.SECOND_UNIT) }
    {
        (Self::MAIN_UNIT, Self::SECOND_UNIT)
    }

    fn make(main: i32, second: i32) -> TwoHead {
        TwoHead { main, second }
    }

    fn add(self, other: TwoHead) -> TwoHead {
        self.plus(other)
    }

    fn negate(self) -> TwoHead {
        TwoHead {
            main: -self.main,
            second: -self.second,
        }
    }

    #[tactic(auto, using(std::proofs::lemmas::Int::ints))]
    fn below(self, other: TwoHead) -> bool {
        self < other
    }

    fn size(self) -> u32 {
        self.main.unsigned_abs().max(self.second.unsigned_abs())
    }
}

impl fmt::Display for TwoHead {
    fn fmt<W: fmt::Write>(&self, f: &mut fmt::Formatter<W>) -> fmt::Result {
        write!(f, "({}, {})", self.main, self.second)
    }
}

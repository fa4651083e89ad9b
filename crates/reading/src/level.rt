ghost use Rattle.std.specs.Prelude.{◌≡◌};
ghost use Rattle.reading.specs.Kinds.{level_weight, level_size, level_opposite};
ghost use Rattle.std.proofs.Common.{rules};

use crate::Reading;
use std::fmt;

// The level kind: one number, which is its weight.
#[repr(C)]
#[derive(Clone, Copy, PartialEq, Eq, PartialOrd, Ord, Debug)]
pub struct Level {
    pub value: i32,
}

impl Reading for Level {
    const MAIN_UNIT: u64 = 1;

    const SECOND_UNIT: u64 = 0;

    ghost MAIN_UNIT = { 1 };

    ghost SECOND_UNIT = { 0 };

    ghost weight = { level_weight };

    ghost size = { level_size };

    ghost opposite = { level_opposite };

    ghost main_unit = { Prim.search rules };

    ghost negation = { Prim.search rules };

    // In each kind, since its contract names the constants of that kind, which a body in the trait could not.
    fn units() -> (u64, u64)
        ensures main { (result.0 ≡ 1) × (result.0 ≡ ⟦<Level as Reading>⟧.MAIN_UNIT) }
        ensures second { (result.1 ≡ 0) × (result.1 ≡ ⟦<Level as Reading>⟧.SECOND_UNIT) }
    {
        (Self::MAIN_UNIT, Self::SECOND_UNIT)
    }

    fn make(main: i32, _second: i32) -> Level {
        Level { value: main }
    }

    fn add(self, other: Level) -> Level {
        Level {
            value: self.value + other.value,
        }
    }

    fn negate(self) -> Level {
        Level { value: -self.value }
    }

    fn below(self, other: Level) -> bool {
        self < other
    }

    fn size(self) -> u32 {
        self.value.unsigned_abs()
    }
}

impl fmt::Display for Level {
    fn fmt<W: fmt::Write>(&self, f: &mut fmt::Formatter<W>) -> fmt::Result {
        write!(f, "{}", self.value)
    }
}

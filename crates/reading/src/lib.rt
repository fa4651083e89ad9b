#![tactic(auto)]

pub mod level;
pub mod two_head;

ghost use Rattle.std.specs.Prelude.{◌≡◌, ℕ, ◌+◌, ◌≤◌, max, ℤ, pos, ◌+ℤ◌, ◌*ℤ◌, int_lt, unsigned_abs};
ghost use Rattle.code.specs.Limits.{full_label, sum_limit};
ghost use Rattle.reading.specs.Opposites.{Opposites};

// A kind of reading. What a reading means is one whole number, its weight; its size bounds how far sums of readings can grow.
pub trait Reading: Copy {
    // What one step of the main label weighs, and one of the second.
    const MAIN_UNIT: u64;

    const SECOND_UNIT: u64;

    ghost MAIN_UNIT: { ℕ };

    ghost SECOND_UNIT: { ℕ };

    ghost weight: { Self → ℤ };

    ghost size: { Self → ℕ };

    ghost opposite: { Self → Self };

    // The main unit and the second unit.
    fn units() -> (u64, u64)
        ensures main { result.0 ≡ MAIN_UNIT }
        ensures second { result.1 ≡ SECOND_UNIT };

    // The reading of a main label and a second label.
    fn make(main: i32, second: i32) -> Self
        requires { (unsigned_abs main ≤ full_label) × (unsigned_abs second ≤ full_label) }
        ensures weighs { weight result ≡ (main *ℤ pos MAIN_UNIT) +ℤ (second *ℤ pos SECOND_UNIT) }
        ensures small { size result ≤ max (unsigned_abs main) (unsigned_abs second) };

    // The sum of two readings whose sizes total at most 2^28.
    fn add(self, other: Self) -> Self
        requires { size self + size other ≤ sum_limit }
        ensures weighs { weight result ≡ weight self +ℤ weight other }
        ensures small { size result ≤ size self + size other };

    // The reading of opposite weight, up to size 2^28; twice gives the same reading in every field.
    fn negate(self) -> Self
        requires { size self ≤ sum_limit }
        ensures { result ≡ opposite self };

    // Whether this weight is below the other: the derived order of a kind, with the law by which a search of any kind compares.
    fn below(self, other: Self) -> bool
        ensures { result ≡ int_lt (weight self) (weight other) };

    fn size(self) -> u32
        ensures { result ≡ size self };

    ghost main_unit: { 1 ≤ MAIN_UNIT };

    ghost negation: { Opposites weight size opposite };
}

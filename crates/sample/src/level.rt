ghost use Rattle.std.specs.Prelude.{◌≡◌, ◌≤◌, true, false, IfSome, MatchOption, OnSome, unsigned_abs};
ghost use Rattle.code.specs.Limits.{full_label};
ghost use Rattle.sample.specs.Levels.{Exact, in_range, label_at, label_of, LabelRule};

use std::num;

// The label of full level.
pub const FULL_LABEL: i32 = 1024;

// The largest level, and what a level is multiplied by: full level at the scale of labels.
const FULL_LEVEL: f32 = 1.0;

const LABEL_SCALE: f32 = 1024.0;

// Whether a level is a number from -1 to 1.
fn in_range(v: f32) -> bool
    ensures { result ≡ in_range v }
{
    v.abs() <= FULL_LEVEL
}

// 1,024 times a level with its fraction dropped. The product is exact, being by a power of two.
fn scaled(v: f32) -> i32
    requires { in_range v ≡ true }
    ensures value { result ≡ label_at v }
    ensures rule { LabelRule v result }
    ensures exact { Exact v }
    ensures bound { unsigned_abs result ≤ full_label }
{
    num::saturating_f32_to_i32(v * LABEL_SCALE)
}

// The label of a level: 1,024 times it with its fraction dropped; none where it is not a number from -1 to 1.
// No `TryFrom`: both types are the library's, which alone may write it.
// The rule is stated in units of 2^-149, of which every level is a whole number.
pub fn label(v: f32) -> Option<i32>
    ensures value { result ≡ label_of v }
    ensures rule { MatchOption result (in_range v ≡ false) (LabelRule v) }
    ensures exact { OnSome result (Exact v) }
    ensures bound { IfSome result (λ l. unsigned_abs l ≤ full_label) }
{
    if in_range(v) { Some(scaled(v)) } else { None }
}

#![tactic(auto)]

ghost use Rattle.std.specs.Prelude.{◌≡◌, ℕ, ◌+◌, ◌*◌, ◌^◌, ◌<◌, ◌≤◌, length, ◌+ℤ◌, neg_ℤ, Ok, Err, sum_by, MatchOption, MatchResult, ◌≢◌};
ghost use Rattle.code.specs.Limits.{sum_limit};
ghost use Rattle.hadamard.specs.Transform.{Transformed, verdict, max_exponent};
ghost use Rattle.hadamard.specs.Stages.{Crossed, Staged, block};

use code::limits::SUM_LIMIT;
use code::refusal::Refusal;
use reading::Reading;

// The largest exponent t of a list of 2^t readings.
const MAX_EXPONENT: usize = 16;

// The bound on the total of sizes stands at each function that takes a list: the lists are parts of a lent one, which has no type to hold it.

// One step of the transform: the sum of two readings and their difference.
pub fn butterfly<R: Reading>(a: R, b: R) -> (R, R)
    requires { R.Reading.size a + R.Reading.size b ≤ sum_limit }
    ensures sum { R.Reading.weight result.0 ≡ R.Reading.weight a +ℤ R.Reading.weight b }
    ensures difference { R.Reading.weight result.1 ≡ R.Reading.weight a +ℤ neg_ℤ (R.Reading.weight b) }
    ensures sum_size { R.Reading.size result.0 ≤ R.Reading.size a + R.Reading.size b }
    ensures difference_size { R.Reading.size result.1 ≤ R.Reading.size a + R.Reading.size b }
{
    let sum = a.add(b);
    let difference = a.add(b.negate());
    (sum, difference)
}

// One block of a stage: entries k and half + k become their sum and their difference.
// The second half goes by number: after a zip of two `iter_mut` a proof knows no entry.
fn cross<R: Reading>(list: &mut [R], half: usize)
    requires long { length list.old ≡ half + half }
    requires small { sum_by R.Reading.size list.old ≤ sum_limit }
    ensures { Crossed R.Reading half half list.old list.new }
{
    let (low, high) = list.split_at_mut(half);
    for (k, x) in low.iter_mut().enumerate() {
        let (sum, difference) = butterfly(*x, high[k]);
        *x = sum;
        high[k] = difference;
    }
}

// The butterflies of stride `half` in each block of twice as many entries.
// The blocks are cut by their places: of what a list holds after a loop over `chunks_exact_mut` the library promises only the length.
fn cross_blocks<R: Reading>(list: &mut [R], half: usize, blocks: usize)
    requires long { length list.old ≡ blocks * (half + half) }
    requires small { (b : ℕ) → b < blocks → sum_by R.Reading.size (block (half + half) b list.old) ≤ sum_limit }
    ensures { Staged R.Reading half blocks blocks list.old list.new }
{
    for b in 0..blocks {
        let size = half + half;
        let base = b * size;
        cross(&mut list[base..base + size], half);
    }
}

// One stage: the butterflies of one stride.
// The small strides are named as constants, so that the loop over a block is unrolled: without this the transform of 65,536 levels takes 1.6 times as long.
fn stage<R: Reading>(list: &mut [R], half: usize, blocks: usize)
    requires long { length list.old ≡ blocks * (half + half) }
    requires small { (b : ℕ) → b < blocks → sum_by R.Reading.size (block (half + half) b list.old) ≤ sum_limit }
    ensures { Staged R.Reading half blocks blocks list.old list.new }
{
    match half {
        1 => cross_blocks(list, 1, blocks),
        2 => cross_blocks(list, 2, blocks),
        4 => cross_blocks(list, 4, blocks),
        _ => cross_blocks(list, half, blocks),
    }
}

// All stages over a list of 2^t readings, the largest stride first.
// The stride is halved in place: computed from the number of the stage by a shift, it makes the transform take 1.6 to 2.2 times as long.
fn stages<R: Reading>(list: &mut [R], t: usize)
    requires long { length list.old ≡ 2 ^ t }
    requires small { sum_by R.Reading.size list.old ≤ sum_limit }
    ensures { Transformed R.Reading list.old list.new }
{
    let mut half = list.len();
    let mut blocks = 1;
    for _ in 0..t {
        half /= 2;
        stage(list, half, blocks);
        blocks *= 2;
    }
}

// The exponent t of a length 2^t with t at most 16.
fn exponent(n: usize) -> Option<usize>
    ensures { MatchOption result ((t : ℕ) → t ≤ max_exponent → n ≢ 2 ^ t) (λ t. (t ≤ max_exponent) × (n ≡ 2 ^ t)) }
{
    let t = n.trailing_zeros() as usize;
    if n.is_power_of_two() && t <= MAX_EXPONENT {
        Some(t)
    } else {
        None
    }
}

// The total of the sizes of at most 2^16 readings.
fn total<R: Reading>(list: &[R]) -> u64
    requires { length list.now ≤ 2 ^ max_exponent }
    ensures { result ≡ sum_by R.Reading.size list.now }
{
    list.iter().map(|x| u64::from(x.size())).sum()
}

// The exponent of a list that may be transformed, or why it may not.
fn check<R: Reading>(list: &[R]) -> Result<usize, Refusal>
    ensures { MatchResult result
        (λ t. (length list.now ≡ 2 ^ t) × (sum_by R.Reading.size list.now ≤ sum_limit) × (verdict (length list.now) (sum_by R.Reading.size list.now) ≡ Ok tt))
        (λ e. verdict (length list.now) (sum_by R.Reading.size list.now) ≡ Err e) }
{
    let t = exponent(list.len()).ok_or(Refusal::ListNotPower)?;
    if total(list) > SUM_LIMIT {
        return Err(Refusal::ListTotalTooLarge);
    }
    Ok(t)
}

// Replaces entry i by the sum over j of entry j, negated where the bits common to i and j are odd in number.
// The list has 2^t readings, t from 0 to 16, whose sizes total at most 2^28; any other is refused and left as it was.
pub fn transform<R: Reading>(list: &mut [R]) -> Result<(), Refusal>
    ensures value { result ≡ verdict (length list.old) (sum_by R.Reading.size list.old) }
    ensures list { elim result [ Ok u ↦ Transformed R.Reading list.old list.new | Err e ↦ list.new ≡ list.old ] }
{
    let t = check(list)?;
    stages(list, t);
    Ok(())
}

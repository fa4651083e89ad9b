#![tactic(auto)]

pub mod level;

ghost use Rattle.std.specs.Prelude.{◌≡◌, ◌≤◌, IfOk, MatchResult, unsigned_abs};
ghost use Rattle.code.specs.Limits.{full_label};
ghost use Rattle.sample.specs.Levels.{label_at};
ghost use Rattle.sample.specs.Samples.{answer, fault, level_fault, labels_of, first_fault, Good, Bad, AllGood, FirstBad};

use crate::level::{FULL_LABEL, label};
use code::refusal::Refusal;

// Two levels that were read together.
#[derive(Clone, Copy)]
pub struct Pair {
    pub main: f32,
    pub second: f32,
}

// What was read at one place: a bare bit, a level, a pair of levels, or nothing.
#[derive(Clone, Copy)]
pub enum Sample {
    Bit(u8),
    Level(f32),
    Pair(Pair),
    Dropout,
}

// The main and the second label of a sample, each a whole number from -1,024 to 1,024.
#[derive(Clone, Copy, PartialEq, Eq, Debug)]
pub struct Labels {
    pub main: i32,
    pub second: i32,
}

// The label of a level read at a place, or its refusal.
fn level_label(v: f32, place: usize) -> Result<i32, Refusal>
    ensures value { result ≡ answer (level_fault place v) (label_at v) }
    ensures bound { IfOk result (λ l. unsigned_abs l ≤ full_label) }
{
    label(v).ok_or(Refusal::LevelOutOfRange { place })
}

impl Sample {
    // The labels of the sample, which stands at that place of a pass, or its refusal. A label not named is 0.
    pub fn labels(&self, place: usize) -> Result<Labels, Refusal>
        ensures value { result ≡ answer (fault place self.now) (labels_of self.now) }
        ensures rule { MatchResult result (λ _. Good self.now) (Bad place self.now) }
        ensures bound { IfOk result (λ l. (unsigned_abs l.main ≤ full_label) × (unsigned_abs l.second ≤ full_label)) }
    {
        let (main, second) = match self {
            Sample::Bit(0) => (FULL_LABEL, 0),
            Sample::Bit(1) => (-FULL_LABEL, 0),
            Sample::Bit(_) => return Err(Refusal::BitNotBinary { place }),
            Sample::Level(v) => (level_label(*v, place)?, 0),
            Sample::Pair(p) => (level_label(p.main, place)?, level_label(p.second, place)?),
            Sample::Dropout => (0, 0),
        };
        Ok(Labels { main, second })
    }
}

// Checks the samples from place 0 on; refuses the first bad one.
fn first_bad(samples: &[Sample]) -> Result<(), Refusal>
    ensures value { result ≡ answer (first_fault 0 samples.now) tt }
    ensures rule { MatchResult result (λ _. AllGood samples.now) (FirstBad samples.now) }
{
    for (place, sample) in samples.iter().enumerate() {
        sample.labels(place)?;
    }
    Ok(())
}

// Checks the samples of a pass; refuses the first bad one, with its place.
pub fn check_samples(samples: &[Sample]) -> Result<(), Refusal>
    ensures value { result ≡ answer (first_fault 0 samples.now) tt }
    ensures rule { MatchResult result (λ _. AllGood samples.now) (FirstBad samples.now) }
{
    first_bad(samples)
}

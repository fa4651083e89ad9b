ghost use Rattle.std.specs.Prelude.{◌≡◌, ℕ, MatchResult};
ghost use Rattle.code.specs.declared.refusal.Refusal.TheVariants.{LengthOutOfRange};
ghost use Rattle.code.specs.Limits.{Length};

use crate::limits::MAX_PLACES;
use crate::refusal::Refusal;
use std::marker::Model;

// The number of places of a word, from 1 to 64 and never anything else.
#[derive(Clone, Copy, PartialEq, Eq, Debug)]
pub struct WordLength {
    places: usize,
}

impl Model for WordLength {
    ghost Value = { ℕ };

    ghost view = { λ w. w.places };

    ghost invariant = { λ w. Length w.places };

    ghost inverse = { λ n. record { places = n } };
}

impl WordLength {
    // The length of so many places, or the refusal of a number that is no length. A constructor: a `TryFrom` is no plainer.
    pub fn new(places: usize) -> Result<WordLength, Refusal>
        ensures { MatchResult result (λ w. (w ≡ places) × Length w) (λ e. (e ≡ LengthOutOfRange) × (Length places → ⊥)) }
    {
        if places == 0 || places > MAX_PLACES {
            return Err(Refusal::LengthOutOfRange);
        }
        Ok(WordLength { places })
    }

    // How many places a word of this length has.
    pub fn places(self) -> usize
        ensures value { result ≡ self }
        ensures lawful { Length result }
    {
        self.places
    }
}

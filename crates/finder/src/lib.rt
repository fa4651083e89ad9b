#![tactic(auto)]

pub mod both;
pub mod either;
pub mod fold;
pub mod found;
pub mod of_card;
pub mod plain;

ghost use Rattle.std.specs.Prelude.{◌≡◌, ◌<◌, ◌≤◌, length, MatchOption, MatchResult, slice_index};
ghost use Rattle.finder.specs.Search.{Lawful, Meaning, Answered, Refused};

use crate::found::Found;
use code::length::WordLength;
use code::refusal::Refusal;
use reading::Reading;

// A finder means a word length and a list of rows. It finds, for a word of readings, the smallest message among those of greatest agreement.
pub trait Finder {
    ghost meaning: { Self → Meaning };

    // The number of places of a word.
    fn length(&self) -> WordLength
        ensures { result ≡ (meaning self.now).span };

    fn row_count(&self) -> usize
        ensures { result ≡ length (meaning self.now).rows };

    // Row j, or none for a number beyond the last.
    fn row(&self, j: usize) -> Option<u64>
        ensures { MatchOption result (length (meaning self.now).rows ≤ j) (λ w. (j < length (meaning self.now).rows) × (w ≡ slice_index (meaning self.now).rows j)) };

    // How many readings of work memory a search needs.
    fn need(&self) -> usize
        ensures { result ≡ (meaning self.now).need };

    // The smallest message of greatest agreement with the word, and a reading of that weight.
    // `Refused` takes the length and the need apart, since `fold`, which refuses, knows no rows.
    // The word is the same afterwards, and so is all work memory beyond the need; a refusal changes nothing.
    fn search<R: Reading>(&self, word: &mut [R], work: &mut [R]) -> Result<Found<R>, Refusal>
        ensures same { word.new ≡ word.old }
        ensures answer { MatchResult result
            (Answered R.Reading (meaning self.now) word.old work.old work.new)
            (Refused R.Reading.size (meaning self.now).span (meaning self.now).need word.old work.old work.new) };

    ghost lawful: { (s : Self) → Lawful (meaning s) };
}

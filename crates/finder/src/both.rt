ghost use Rattle.std.specs.Prelude.{◌≡◌, ◌⊎◌, map, MatchResult};
ghost use Rattle.finder.specs.Search.{Answered, Refused};
ghost use Rattle.finder.specs.Same.{SameAnswer, Taken};

use crate::Finder;
use crate::found::Found;
use code::refusal::Refusal;
use reading::Reading;

// Searches a word with one finder and a word, perhaps of another kind of reading, with another; answers what both find, or the first refusal.
// Finders with the same rows in the same order find the same message and the same weight at equal weights.
pub fn search_both<R: Reading, Q: Reading, A: Finder, B: Finder>(
    a: &A,
    b: &B,
    word_a: &mut [R],
    word_b: &mut [Q],
    work_a: &mut [R],
    work_b: &mut [Q],
) -> Result<(Found<R>, Found<Q>), Refusal>
    ensures same_a { word_a.new ≡ word_a.old }
    ensures same_b { word_b.new ≡ word_b.old }
    ensures answer { MatchResult result
        (λ p. Answered R.Reading (A.Finder.meaning a.now) word_a.old work_a.old work_a.new p.0 × Answered Q.Reading (B.Finder.meaning b.now) word_b.old work_b.old work_b.new p.1)
        (λ e. (Refused R.Reading.size (A.Finder.meaning a.now).span (A.Finder.meaning a.now).need word_a.old work_a.old work_a.new e × (work_b.new ≡ work_b.old))
        ⊎ (Taken R.Reading.size (A.Finder.meaning a.now).span (A.Finder.meaning a.now).need word_a.old work_a.old work_a.new
        × Refused Q.Reading.size (B.Finder.meaning b.now).span (B.Finder.meaning b.now).need word_b.old work_b.old work_b.new e)) }
    ensures agree { MatchResult result
        (λ p. SameAnswer (A.Finder.meaning a.now).rows (B.Finder.meaning b.now).rows (map R.Reading.weight word_a.old) (map Q.Reading.weight word_b.old) p.0.message p.1.message (R.Reading.weight p.0.reading) (Q.Reading.weight p.1.reading))
        (λ _. Unit {0}) }
{
    let first = a.search(word_a, work_a)?;
    let second = b.search(word_b, work_b)?;
    Ok((first, second))
}

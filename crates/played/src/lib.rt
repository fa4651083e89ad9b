#![tactic(auto)]

ghost use Rattle.std.specs.Prelude.{◌≡◌, ℕ, ◌<◌, ◌≤◌, length, MatchResult, if◌then◌else◌, slice_index_or};
ghost use Rattle.code.specs.Limits.{max_places};
ghost use Rattle.code.specs.Words.{digit};
ghost use Rattle.sample.specs.declared.Sample.{Sample};
ghost use Rattle.sheet.specs.Stands.{SearchLaw};
ghost use Rattle.played.specs.Played.{level_for, played_as, Played, Written, Again};

use card::states::FinishedCard;
use code::refusal::Refusal;
use finder::Finder;
use finder::found::Found;
use reading::Reading;
use sample::Sample;
use sheet::Sheet;

// Full level, of a digit 0 and of a digit 1.
const HIGH: f32 = 1.0;

const LOW: f32 = -1.0;

// A digit at full level, as a level or as a bit.
fn digit_sample(digit: u64, as_level: bool) -> Sample
    requires { digit < 2 }
    ensures { result ≡ (if as_level then Sample.Level (level_for digit) else Sample.Bit digit) }
{
    if as_level {
        Sample::Level(if digit == 0 { HIGH } else { LOW })
    } else {
        Sample::Bit(digit as u8)
    }
}

// Sets each sample to the word's digit at its place.
fn write_digits(word: u64, levels: u64, samples: &mut [Sample])
    requires { length samples.old ≤ max_places }
    ensures { (k : ℕ) (x : Sample) → k < length samples.new → slice_index_or samples.new k x ≡ played_as (digit k levels) (digit k word) }
{
    for (place, sample) in samples.iter_mut().enumerate() {
        *sample = digit_sample((word >> place) % 2, (levels >> place) % 2 == 1);
    }
}

// Writes the code word of a message into lent samples, each digit at full level; answers how many were written. The library uses no heap.
// `play` hands on to it, as `find_again` does to another: a public call then needs no proof file, and a must-fail edit there is refused by a fact.
fn write_message(
    card: &FinishedCard,
    message: u64,
    levels: u64,
    samples: &mut [Sample],
) -> Result<usize, Refusal>
    ensures answer { Played card.now message (length samples.old) result }
    ensures written { MatchResult result (λ _. Written card.now message levels samples.old samples.new) (λ _. samples.new ≡ samples.old) }
{
    let n = card.word_length().places();
    if samples.len() < n {
        return Err(Refusal::OutputShort);
    }
    let word = card.encode(message)?;
    write_digits(word, levels, &mut samples[0..n]);
    Ok(n)
}

// Plays a message of a card into lent samples at full level: a place where `levels` has digit 1 as level 1 for 0 and -1 for 1, any other as a bit.
// Answers how many samples were written; those beyond stay, and a refusal changes nothing.
pub fn play(
    card: &FinishedCard,
    message: u64,
    levels: u64,
    samples: &mut [Sample],
) -> Result<usize, Refusal>
    ensures answer { Played card.now message (length samples.old) result }
    ensures written { MatchResult result (λ _. Written card.now message levels samples.old samples.new) (λ _. samples.new ≡ samples.old) }
{
    write_message(card, message, levels, samples)
}

fn search_played<R: Reading, F: Finder>(
    sheet: &mut Sheet<R>,
    finder: &F,
    work: &mut [R],
) -> Result<Found<R>, Refusal>
    ensures law { SearchLaw R.Reading sheet.old sheet.new (F.Finder.meaning finder.now) work.old work.new result }
    ensures again { Again R.Reading sheet.old (F.Finder.meaning finder.now) (length work.old) result }
{
    sheet.search(finder, work)
}

// Searches a sheet for what was played to it. A message played once at full level from a card, to a sheet with no passes, is found again
// by every finder of the card's length and rows that is given its need: the message, and the weight of full level at every place.
pub fn find_again<R: Reading, F: Finder>(
    sheet: &mut Sheet<R>,
    finder: &F,
    work: &mut [R],
) -> Result<Found<R>, Refusal>
    ensures law { SearchLaw R.Reading sheet.old sheet.new (F.Finder.meaning finder.now) work.old work.new result }
    ensures again { Again R.Reading sheet.old (F.Finder.meaning finder.now) (length work.old) result }
{
    search_played(sheet, finder, work)
}

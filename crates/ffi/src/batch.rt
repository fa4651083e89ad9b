ghost use Rattle.std.specs.Prelude.{◌≡◌, length, Ok, Err, MatchResult};
ghost use Rattle.card_file.specs.Files.{read_card_lem};
ghost use Rattle.ffi.specs.Batch.{CardLeft, WordSearched, WordsLeft, call_number, need_in, words_number};
ghost use Rattle.ffi.specs.Numbered.{numbered};

use crate::answer::Answer;
use card::states::FinishedCard;
use card_file::read::read_card;
use card_finder::card_finder;
use code::refusal::Refusal;
use finder::Finder;
use finder::of_card::OfCard;
use reading::level::Level;

// The card that a file's bytes describe.
fn card_of(bytes: &[u8]) -> Result<FinishedCard, Refusal>
    ensures { MatchResult result (λ k. read_card_lem bytes.now ≡ Ok k) (λ e. read_card_lem bytes.now ≡ Err e) }
{
    let mut card = FinishedCard::new();
    read_card(bytes, &mut card)?;
    Ok(card)
}

// Searches one word.
fn search_word<F: Finder>(finder: &F, word: &mut [Level], work: &mut [Level]) -> Answer
    ensures same { word.new ≡ word.old }
    ensures searched { WordSearched (F.Finder.meaning finder.now) word.old work.old work.new result }
{
    Answer::from(finder.search(word, work))
}

// Searches each word and writes its answer, or turns all of them down where the readings are not as many words as there are answers.
// The words are cut by their number, since a proof knows nothing of the elements of a slice after `chunks_exact_mut` of it.
fn search_all<F: Finder>(
    finder: &F,
    words: &mut [Level],
    work: &mut [Level],
    answers: &mut [Answer],
) -> Result<(), Refusal>
    ensures value { numbered result ≡ words_number (F.Finder.meaning finder.now).span (length words.old) (length answers.old) }
    ensures same { words.new ≡ words.old }
    ensures left { WordsLeft (numbered result) (F.Finder.meaning finder.now) words.old work.old work.new answers.old answers.new }
{
    let n = finder.length().places();
    if answers.len().checked_mul(n) != Some(words.len()) {
        return Err(Refusal::WordLengthDiffers);
    }
    for (j, answer) in answers.iter_mut().enumerate() {
        *answer = search_word(finder, &mut words[j * n..j * n + n], work);
    }
    Ok(())
}

// How many levels of work memory the finder F under the coset layers of a file's card needs, or 0 where the file is refused, as C reads it.
pub(crate) fn need_with<F: OfCard + Drop>(bytes: &[u8]) -> usize
    ensures { result ≡ need_in F.OfCard.need_of (read_card_lem bytes.now) }
{
    let Ok(card) = card_of(bytes) else {
        return 0;
    };
    card_finder::<F>(&card).need()
}

// Searches words that lie one after the other with the finder F under the coset layers of a file's card.
pub(crate) fn search_with<F: OfCard + Drop>(
    bytes: &[u8],
    words: &mut [Level],
    work: &mut [Level],
    answers: &mut [Answer],
) -> Result<(), Refusal>
    ensures value { numbered result ≡ call_number (read_card_lem bytes.now) (length words.old) (length answers.old) }
    ensures same { words.new ≡ words.old }
    ensures left { CardLeft (read_card_lem bytes.now) F.OfCard.need_of (numbered result) words.old work.old work.new answers.old answers.new }
{
    let card = card_of(bytes)?;
    search_all(&card_finder::<F>(&card), words, work, answers)
}

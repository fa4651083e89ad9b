#![tactic(auto)]

mod answer;
mod batch;

ghost use Rattle.std.specs.Prelude.{◌≡◌, length, sum_by};
ghost use Rattle.card_file.specs.Files.{read_card_lem};
ghost use Rattle.finder.specs.OfCard.{plain_need_of};
ghost use Rattle.group_finder.specs.Choices.{group_need_of};
ghost use Rattle.reading.specs.Kinds.{level_size};
ghost use Rattle.hadamard.specs.Transform.{verdict};
ghost use Rattle.ffi.specs.Batch.{CardLeft, call_number, need_in};
ghost use Rattle.ffi.specs.Numbered.{numbered, Left};

use crate::answer::Answer;
use crate::batch::{need_with, search_with};
use code::refusal::Refusal;
use finder::plain::PlainFinder;
use group_finder::GroupFinder;
use hadamard::transform;
use reading::Reading;
use reading::level::Level;

// 0, or the number of the refusal: C knows refusals by their numbers.
fn number(answer: Result<(), Refusal>) -> u8
    ensures { result ≡ numbered answer }
{
    match answer {
        Ok(()) => 0,
        Err(refusal) => refusal.number(),
    }
}

// The transform, in place, of a list of levels that C or Rust lends: answers 0, or the number of the refusal.
#[unsafe(no_mangle)]
pub extern "C" fn yalknobi_transform(list: &mut [Level]) -> u8
    ensures value { result ≡ numbered (verdict (length list.old) (sum_by level_size list.old)) }
    ensures list { Left ⟦<Level as Reading>⟧ result list.old list.new }
{
    number(transform(list))
}

// How many levels of work memory `yalknobi_plain_search` needs for a card file, or 0 where the file is refused.
#[unsafe(no_mangle)]
pub extern "C" fn yalknobi_plain_need(card: &[u8]) -> usize
    ensures { result ≡ need_in plain_need_of (read_card_lem card.now) }
{
    need_with::<PlainFinder>(card)
}

// How many levels of work memory `yalknobi_group_search` needs for a card file, or 0 where the file is refused.
#[unsafe(no_mangle)]
pub extern "C" fn yalknobi_group_need(card: &[u8]) -> usize
    ensures { result ≡ need_in group_need_of (read_card_lem card.now) }
{
    need_with::<GroupFinder>(card)
}

// Searches words that lie one after the other, by all rows of a card file, with the plain finder below its coset layers.
// Answers 0, having written an answer for each word, or the number of the refusal of the file, or 13 where the readings are not as many words as there are answers.
#[unsafe(no_mangle)]
pub extern "C" fn yalknobi_plain_search(
    card: &[u8],
    words: &mut [Level],
    work: &mut [Level],
    answers: &mut [Answer],
) -> u8
    ensures value { result ≡ call_number (read_card_lem card.now) (length words.old) (length answers.old) }
    ensures words { words.new ≡ words.old }
    ensures left { CardLeft (read_card_lem card.now) plain_need_of result words.old work.old work.new answers.old answers.new }
{
    number(search_with::<PlainFinder>(card, words, work, answers))
}

// The same with the group finder below the coset layers.
#[unsafe(no_mangle)]
pub extern "C" fn yalknobi_group_search(
    card: &[u8],
    words: &mut [Level],
    work: &mut [Level],
    answers: &mut [Answer],
) -> u8
    ensures value { result ≡ call_number (read_card_lem card.now) (length words.old) (length answers.old) }
    ensures words { words.new ≡ words.old }
    ensures left { CardLeft (read_card_lem card.now) group_need_of result words.old work.old work.new answers.old answers.new }
{
    number(search_with::<GroupFinder>(card, words, work, answers))
}

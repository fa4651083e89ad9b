// The card that the lines of a text have described so far.
ghost use Rattle.std.specs.Prelude.{◌≡◌, Ok, Err, MatchResult};
ghost use Rattle.card.specs.OpenCards.{open_of, shown};
ghost use Rattle.card_text.specs.Drafts.{unset, finished, length_read, reopened, row_added, started};

use crate::fault::Problem;
use crate::line::{decimal_of, read_row};
use card::open::{AnyCard, OpenCard};
use card::states::FinishedCard;
use code::length::WordLength;
use code::refusal::Section;
use std::marker::Model;

// What the lines so far have given: nothing, or a length and a card of that length. A card that takes rows does not tell
// its length, so that is kept beside the card.
#[derive(Drop)]
pub(crate) struct Draft {
    given: Option<(WordLength, OpenCard)>,
}

impl Model for Draft {
    ghost use Rattle.card_text.specs.Drafts.{Stage, stage_of};

    ghost Value = { Stage };

    ghost view = { λ d. stage_of d.given };
}

impl Draft {
    // The draft before the first line.
    pub(crate) fn new() -> Draft
        ensures { result ≡ unset }
    {
        Draft { given: None }
    }

    // The draft after a line that gives the length.
    pub(crate) fn set_length(self, digits: &[u8]) -> Result<Draft, Problem>
        ensures { result ≡ length_read self digits.now }
    {
        if self.given.is_some() {
            return Err(Problem::LengthAgain);
        }
        start(decimal_of(digits))
    }

    // The draft after a line that gives a row.
    pub(crate) fn add_row(self, section: Section, digits: &[u8]) -> Result<Draft, Problem>
        ensures { result ≡ row_added section self digits.now }
    {
        let (length, card) = self.given.ok_or(Problem::LengthMissing)?;
        let mut card = move_to(card, section)?;
        let row = read_row(length, section, digits)?;
        card.add_row(row)?;
        Ok(Draft {
            given: Some((length, card)),
        })
    }

    // The card that the draft describes, taking no more rows.
    pub(crate) fn finish(self) -> Result<FinishedCard, Problem>
        ensures { result ≡ finished self }
    {
        let (_, card) = self.given.ok_or(Problem::LengthMissing)?;
        Ok(card.finish())
    }
}

// The draft of a length, with no rows.
fn start(number: Option<usize>) -> Result<Draft, Problem>
    ensures { result ≡ started number }
{
    let places = number.ok_or(Problem::LengthNotDecimal)?;
    let length = WordLength::new(places)?;
    Ok(Draft {
        given: Some((length, OpenCard::new(length))),
    })
}

// The same card with that section open, unless the section is closed.
fn move_to(card: OpenCard, section: Section) -> Result<OpenCard, Problem>
    ensures { MatchResult result (λ k. (shown k ≡ shown card) × (open_of k ≡ section) × (Ok section ≡ reopened (open_of card) section)) (λ e. Err e ≡ reopened (open_of card) section) }
{
    let mut open = card;
    while open.open_section() != section {
        let AnyCard::Open(next) = open.move_on() else {
            return Err(Problem::SectionClosed { section });
        };
        open = next;
    }
    Ok(open)
}

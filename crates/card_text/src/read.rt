ghost use Rattle.std.specs.Prelude.{◌≡◌, IfOk, OnErr, OnOk};
ghost use Rattle.card.specs.Cards.{Lawful};
ghost use Rattle.card_text.specs.Lines.{trimmed};
ghost use Rattle.card_text.specs.Sayings.{card_says, text_says};
ghost use Rattle.card_text.specs.Drafts.{in_line, line_read, noted, read_text_lem, refilled};

use crate::draft::Draft;
use crate::fault::{Problem, TextFault};
use crate::line::{Keyword, NEWLINE, is_passed_over, keyword_of, split_word, without_return};
use card::states::FinishedCard;

// Fills the card from a text, or says what is wrong with the text and leaves the card as it was. The lines of a text that
// is taken give the card's length and its rows, in their order, and nothing else.
pub fn read_text(bytes: &[u8], into: &mut FinishedCard) -> Result<(), TextFault>
    ensures answer { result ≡ noted (read_text_lem bytes.now) }
    ensures card { into.new ≡ refilled (read_text_lem bytes.now) into.old }
    ensures refused { OnErr result (into.new ≡ into.old) }
    ensures says { OnOk result (text_says bytes.now ≡ card_says into.new) }
    ensures lawful { Lawful into.new }
{
    // The calls show that the card is lawful, the one lent and the one read.
    let _ = into.word_length();
    let card = read_lines(bytes)?;
    let _ = card.word_length();
    *into = card;
    Ok(())
}

// The card that the lines of a text describe. The lines are counted beside the loop, since a fault at the end needs the
// number of the last.
fn read_lines(bytes: &[u8]) -> Result<FinishedCard, TextFault>
    ensures answer { result ≡ read_text_lem bytes.now }
    ensures says { IfOk result (λ k. text_says bytes.now ≡ card_says k) }
{
    let mut draft = Draft::new();
    let mut count = 0;
    for line in bytes.split(|byte| *byte == NEWLINE) {
        count += 1;
        draft = read_line(draft, count, line)?;
    }
    draft.finish().map_err(|problem| TextFault {
        line: count,
        problem,
    })
}

// The draft after one line more, which has that number.
fn read_line(draft: Draft, number: usize, bytes: &[u8]) -> Result<Draft, TextFault>
    ensures { result ≡ in_line number (line_read draft (trimmed bytes.now)) }
{
    read_entry(draft, without_return(bytes)).map_err(|problem| TextFault {
        line: number,
        problem,
    })
}

// The draft after what a line says.
fn read_entry(draft: Draft, line: &[u8]) -> Result<Draft, Problem>
    ensures { result ≡ line_read draft line.now }
{
    if is_passed_over(line) {
        return Ok(draft);
    }
    let (word, rest) = split_word(line);
    match keyword_of(word) {
        Keyword::Length => draft.set_length(rest),
        Keyword::Row(section) => draft.add_row(section, rest),
        Keyword::Unknown => Err(Problem::UnknownKeyword),
    }
}

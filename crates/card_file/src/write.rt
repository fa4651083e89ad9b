ghost use Rattle.std.specs.Prelude.{◌≡◌, length, take, IfOk, Ok};
ghost use Rattle.card_file.specs.Files.{file_of, overwritten, read_card_lem, wrote};

use crate::bytes::{ROW_SIZE, write_sections};
use card::states::FinishedCard;
use code::refusal::Refusal;

// The bytes of a file besides its rows: the word length and three counts.
const FRAME: usize = 4;

// Writes the card's file, or refuses where it does not fit. What is written is read back as the same card.
// The memory is lent and the answer is how many bytes were written, since the library uses no heap.
pub fn write_card(card: &FinishedCard, out: &mut [u8]) -> Result<usize, Refusal>
    ensures answer { result ≡ wrote (file_of card.now) (length out.old) }
    ensures bytes { out.new ≡ overwritten (file_of card.now) out.old }
    ensures back { IfOk result (λ end. read_card_lem (take end out.new) ≡ Ok card.now) }
{
    write_file(card, out)
}

// The file, section by section: the call above hands on to it, so that it needs no proof file and a must-fail edit there is refused by a fact.
fn write_file(card: &FinishedCard, out: &mut [u8]) -> Result<usize, Refusal>
    ensures answer { result ≡ wrote (file_of card.now) (length out.old) }
    ensures bytes { out.new ≡ overwritten (file_of card.now) out.old }
    ensures back { IfOk result (λ end. read_card_lem (take end out.new) ≡ Ok card.now) }
{
    let size = FRAME + ROW_SIZE * card.rows().len();
    if out.len() < size {
        return Err(Refusal::OutputShort);
    }
    out[0] = card.word_length().places() as u8;
    write_sections(card, &mut out[1..size]);
    Ok(size)
}

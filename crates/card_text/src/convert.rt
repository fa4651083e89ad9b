// A card's text made into its file, and a file shown as text.
ghost use Rattle.std.specs.Prelude.{◌≡◌, length, take, IfOk};
ghost use Rattle.std.specs.Result.{result_ok};
ghost use Rattle.card_file.specs.Files.{file_of, read_card_lem};
ghost use Rattle.card_text.specs.Conversions.{converted, file_told, text_told, written_as};
ghost use Rattle.card_text.specs.Drafts.{read_text_lem};
ghost use Rattle.card_text.specs.Texts.{text_of};

use crate::fault::Fault;
use crate::read::read_text;
use crate::write::write_text;
use card::states::FinishedCard;
use card_file::read::read_card;
use card_file::write::write_card;

// Writes the file of the card that a text describes. The file is read as the card that the text is read as.
pub fn make_file(text: &[u8], out: &mut [u8]) -> Result<usize, Fault>
    ensures answer { result ≡ converted file_of (text_told (read_text_lem text.now)) (length out.old) }
    ensures bytes { out.new ≡ written_as file_of (result_ok (read_text_lem text.now)) out.old }
    ensures same { IfOk result (λ end. result_ok (read_card_lem (take end out.new)) ≡ result_ok (read_text_lem text.now)) }
{
    let mut card = FinishedCard::new();
    read_text(text, &mut card)?;
    let end = write_card(&card, out)?;
    Ok(end)
}

// Writes the text of the card that a file describes. The text is read as the card that the file is read as.
// Not one function with `make_file`: with a reader and a writer handed in, each contract would speak of four closures' laws.
pub fn show_file(file: &[u8], out: &mut [u8]) -> Result<usize, Fault>
    ensures answer { result ≡ converted text_of (file_told (read_card_lem file.now)) (length out.old) }
    ensures bytes { out.new ≡ written_as text_of (result_ok (read_card_lem file.now)) out.old }
    ensures same { IfOk result (λ end. result_ok (read_text_lem (take end out.new)) ≡ result_ok (read_card_lem file.now)) }
{
    let mut card = FinishedCard::new();
    read_card(file, &mut card)?;
    let end = write_text(&card, out)?;
    Ok(end)
}

// Cards that go from text to file and back.
use crate::OUTPUT_SIZE;
use crate::texts::OF_E;
use anyhow::ensure;
use card::states::{FinishedCard, GroupCard};
use card_file::write::write_card;
use card_text::convert::{make_file, show_file};
use card_text::read::read_text;
use card_text::write::write_text;
use code::length::WordLength;
use code::refusal::Refusal;

// The file of code E: length 5, group rows 3 and 6, transform row 12, coset row 17.
const FILE_OF_E: &[u8; 36] =
    b"\x05\x02\x03\x00\x00\x00\x00\x00\x00\x00\x06\x00\x00\x00\x00\x00\x00\x00\x01\x0c\x00\x00\x00\x00\x00\x00\x00\x01\x11\x00\x00\x00\x00\x00\x00\x00";

// The bytes of its text, and one byte fewer.
const E_TEXT: usize = 61;

const E_SHORT: usize = 60;

// The byte that memory is filled with before something is written into it.
const FILL: u8 = 7;

// A text is made into the file of code E, and that file is shown as the plain text.
pub(crate) fn expect_code_e(text: &[u8]) -> anyhow::Result<()> {
    let mut file = [FILL; OUTPUT_SIZE];
    let mut shown = [FILL; OUTPUT_SIZE];
    let end = make_file(text, &mut file)?;
    let last = show_file(&file[0..end], &mut shown)?;
    ensure!(
        &file[0..end] == FILE_OF_E.as_slice(),
        "a text of code E is made into another file"
    );
    ensure!(
        &shown[0..last] == OF_E[0].as_bytes(),
        "the file of code E is shown as another text"
    );
    Ok(())
}

// A card of length 64 with eight rows in each section, each with one digit. `demo` has another full card; a library for the two would be no plainer.
fn full() -> Result<FinishedCard, Refusal> {
    let mut group = GroupCard::new(WordLength::new(64)?);
    for place in 0u32..8 {
        group.add_row(1 << place)?;
    }
    let mut transform = group.close_group();
    for place in 8u32..16 {
        transform.add_row(1 << place)?;
    }
    let mut coset = transform.close_transform();
    for place in 56u32..64 {
        coset.add_row(1 << place)?;
    }
    Ok(coset.finish())
}

// How many bytes the text and the file of that card have, which are made of one another.
pub(crate) fn full_card() -> anyhow::Result<(usize, usize)> {
    let mut text = [FILL; OUTPUT_SIZE];
    let mut file = [FILL; OUTPUT_SIZE];
    let mut made = [FILL; OUTPUT_SIZE];
    let mut shown = [FILL; OUTPUT_SIZE];
    let card = full()?;
    let text_end = write_text(&card, &mut text)?;
    let file_end = write_card(&card, &mut file)?;
    let made_end = make_file(&text[0..text_end], &mut made)?;
    let shown_end = show_file(&file[0..file_end], &mut shown)?;
    ensure!(
        made_end == file_end && made == file,
        "the text of a full card is made into another file"
    );
    ensure!(
        shown_end == text_end && shown == text,
        "the file of a full card is shown as another text"
    );
    Ok((text_end, file_end))
}

// Code E's text is refused by memory that is a byte too short, which stays, and fits into one byte more.
pub(crate) fn expect_short_memory_refused() -> anyhow::Result<()> {
    let mut card = FinishedCard::new();
    read_text(OF_E[0].as_bytes(), &mut card)?;
    let mut short = [FILL; E_SHORT];
    let mut enough = [FILL; E_TEXT];
    let refused = write_text(&card, &mut short);
    let end = write_text(&card, &mut enough)?;
    ensure!(
        refused == Err(Refusal::OutputShort) && short == [FILL; E_SHORT],
        "memory too short was not refused, or did not stay"
    );
    ensure!(
        end == E_TEXT,
        "the text of code E does not have {E_TEXT} bytes"
    );
    Ok(())
}

use crate::ROWS;
use crate::show::Digits;
use card::states::{FinishedCard, GroupCard};
use card_file::read::read_card;
use card_file::write::write_card;
use code::length::WordLength;
use code::refusal::{Numbered, Refusal, Section};
use code::spaced::Spaced;
use std::io;

// Prints what a row was told.
fn show_answer(rt: &HostRuntime, what: &str, answer: Result<(), Refusal>) -> io::Result<()> {
    match answer {
        Ok(()) => println!(rt; "  {what}: taken"),
        Err(refusal) => println!(rt; "  {what} is {}.", Numbered(refusal)),
    }
}

// The code of the demonstration as a card: rows 0 and 1 are group rows, row 2 is a transform row, row 3 a coset row.
// What other programs build without a word is shown here row by row.
fn code_e(rt: &HostRuntime, length: WordLength) -> io::Result<FinishedCard> {
    let mut group = GroupCard::new(length);
    show_answer(rt, "Group row 3, digits 11000", group.add_row(ROWS[0]))?;
    show_answer(rt, "Group row 6, digits 01100", group.add_row(ROWS[1]))?;
    show_answer(rt, "Row 5 (the sum of 3 and 6)", group.add_row(5))?;
    show_answer(
        rt,
        "Row 9 (which meets row 3 at place 0 and row 6 nowhere)",
        group.add_row(9),
    )?;
    show_answer(rt, "Row 32 (with a digit at place 5)", group.add_row(32))?;
    let mut transform = group.close_group();
    show_answer(
        rt,
        "Transform row 12, digits 00110",
        transform.add_row(ROWS[2]),
    )?;
    let mut coset = transform.close_transform();
    show_answer(rt, "Coset row 17, digits 10001", coset.add_row(ROWS[3]))?;
    Ok(coset.finish())
}

// Row 2 on the group of the code.
fn row_2(rt: &HostRuntime, length: WordLength) -> anyhow::Result<()> {
    println!(rt; "On another card with the group rows 3 and 6:")?;
    let mut group = GroupCard::new(length);
    group.add_row(ROWS[0])?;
    group.add_row(ROWS[1])?;
    let what = "Group row 2 (whose one digit all three have)";
    Ok(show_answer(rt, what, group.add_row(2))?)
}

// A row too many.
fn ninth_row(rt: &HostRuntime) -> anyhow::Result<()> {
    println!(rt; "On a card of 9 places with eight group rows of one digit each:")?;
    let mut full = GroupCard::new(WordLength::new(9)?);
    (0..8u32).try_for_each(|place| full.add_row(1 << place))?;
    Ok(show_answer(rt, "A ninth row", full.add_row(1 << 8))?)
}

// Writes a card file, reads it back and encodes from the card that was read.
fn file(rt: &HostRuntime, card: &FinishedCard) -> anyhow::Result<()> {
    let mut bytes = [0; 64];
    let end = write_card(card, &mut bytes)?;
    let bytes = &bytes[..end];
    println!(rt; "As a card file it has {end} bytes:")?;
    println!(rt; " {}", Spaced(bytes))?;
    let mut back = FinishedCard::new();
    read_card(bytes, &mut back)?;
    println!(rt;
        "Read back, the card has words of {} places and",
        back.word_length().places()
    )?;
    for section in [Section::Group, Section::Transform, Section::Coset] {
        println!(rt; "  {section} rows: {}", Spaced(back.section_rows(section)))?;
    }
    let short = read_card(&bytes[..end / 2], &mut back);
    show_answer(rt, "The first half of the file", short)?;
    encode(rt, &back)
}

fn encode(rt: &HostRuntime, card: &FinishedCard) -> anyhow::Result<()> {
    println!(rt;
        "Message 11, encoded from the card that was read: {}",
        Digits(card.encode(11)?)
    )?;
    if let Err(refusal) = card.encode(16) {
        println!(rt; "Message 16 is {}.", Numbered(refusal))?;
    }
    Ok(())
}

// Builds the code as a card and shows what is refused on the way.
pub(crate) fn cards(rt: &HostRuntime, length: WordLength) -> anyhow::Result<FinishedCard> {
    println!(rt; "\n== A card holds the code ==")?;
    let card = code_e(rt, length)?;
    row_2(rt, length)?;
    ninth_row(rt)?;
    file(rt, &card)?;
    Ok(card)
}

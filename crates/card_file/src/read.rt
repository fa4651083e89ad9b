ghost use Rattle.std.specs.Prelude.{◌≡◌, Ok, Err, MatchResult, OnErr};
ghost use Rattle.code.specs.declared.refusal.Section.{Section};
ghost use Rattle.code.specs.declared.refusal.Section.TheVariants.{Group, Transform, Coset};
ghost use Rattle.card.specs.Cards.{added, Card, Lawful, verdict};
ghost use Rattle.card_file.specs.FileRows.{RowsAsAdded};
ghost use Rattle.card_file.specs.Files.{noted, read_card_lem, read_rows_lem, read_section_lem, read_sections_lem, refilled};

use crate::bytes::ROW_SIZE;
use card::states::{CosetCard, FinishedCard, GroupCard, TransformCard};
use code::length::WordLength;
use code::refusal::{Refusal, Section};

// The largest count of a section.
const MAX_COUNT: u8 = 8;

// A card that takes rows into a section. By `OpenCard`, a file's reader would have to test for a move that never comes.
trait TakesRows {
    ghost shown: { Self → Card };

    ghost part: { Section };

    // The section.
    fn section(&self) -> Section
        ensures { result ≡ part };

    // Adds a row, or turns it down.
    fn take(&mut self, row: u64) -> Result<(), Refusal>
        ensures answer { result ≡ verdict (shown self.old) part row }
        ensures card { shown self.new ≡ added result (shown self.old) part row };
}

impl TakesRows for GroupCard {
    ghost shown = { λ k. k };

    ghost part = { Group };

    fn section(&self) -> Section {
        Section::Group
    }

    fn take(&mut self, row: u64) -> Result<(), Refusal> {
        GroupCard::add_row(self, row)
    }
}

impl TakesRows for TransformCard {
    ghost shown = { λ k. k };

    ghost part = { Transform };

    fn section(&self) -> Section {
        Section::Transform
    }

    fn take(&mut self, row: u64) -> Result<(), Refusal> {
        TransformCard::add_row(self, row)
    }
}

impl TakesRows for CosetCard {
    ghost shown = { λ k. k };

    ghost part = { Coset };

    fn section(&self) -> Section {
        Section::Coset
    }

    fn take(&mut self, row: u64) -> Result<(), Refusal> {
        CosetCard::add_row(self, row)
    }
}

// Fills the card from a file, or turns the file down and leaves the card as it was. The rows of the file stand as rows
// added to a card just started.
#[tactic(auto, using(crate::proofs::RowsAdded::rows_as_added))]
pub fn read_card(bytes: &[u8], into: &mut FinishedCard) -> Result<(), Refusal>
    ensures answer { result ≡ noted (read_card_lem bytes.now) }
    ensures card { into.new ≡ refilled (read_card_lem bytes.now) into.old }
    ensures refused { OnErr result (into.new ≡ into.old) }
    ensures rows { RowsAsAdded bytes.now }
    ensures lawful { Lawful into.new }
{
    // The calls show that the card is lawful, the one lent and the one read.
    let _ = into.word_length();
    let card = read_file(bytes)?;
    let _ = card.word_length();
    *into = card;
    Ok(())
}

// The card that a file describes.
fn read_file(bytes: &[u8]) -> Result<FinishedCard, Refusal>
    ensures { MatchResult result (λ k. Ok k ≡ read_card_lem bytes.now) (λ e. Err e ≡ read_card_lem bytes.now) }
{
    let (card, rest) = read_sections(bytes)?;
    if !rest.is_empty() {
        return Err(Refusal::BytesLeftOver);
    }
    Ok(card)
}

// The card that a file's length and sections describe, and the bytes after them.
fn read_sections(bytes: &[u8]) -> Result<(FinishedCard, &[u8]), Refusal>
    ensures { MatchResult result (λ p. Ok (record { card = p.0; left = p.1.now }) ≡ read_sections_lem bytes.now) (λ e. Err e ≡ read_sections_lem bytes.now) }
{
    let Some((places, rest)) = bytes.split_first() else {
        return Err(Refusal::BytesEndEarly);
    };
    let length = WordLength::new(*places as usize)?;
    let mut group = GroupCard::new(length);
    let after_group = read_section(&mut group, rest)?;
    let mut transform = group.close_group();
    let after_transform = read_section(&mut transform, after_group)?;
    let mut coset = transform.close_transform();
    let after_coset = read_section(&mut coset, after_transform)?;
    Ok((coset.finish(), after_coset))
}

// Reads a section's count and rows from the front, and gives the bytes after them.
fn read_section<'a, C: TakesRows>(card: &mut C, bytes: &'a [u8]) -> Result<&'a [u8], Refusal>
    ensures { MatchResult result (λ rest. Ok (record { card = C.shown card.new; left = rest.now }) ≡ read_section_lem C.part (C.shown card.old) bytes.now) (λ e. Err e ≡ read_section_lem C.part (C.shown card.old) bytes.now) }
{
    let Some((count, rest)) = bytes.split_first() else {
        return Err(Refusal::BytesEndEarly);
    };
    if *count > MAX_COUNT {
        return Err(Refusal::SectionFull {
            section: card.section(),
        });
    }
    read_rows(card, *count, rest)
}

// Reads `count` rows of a section from the front, and gives the bytes after them.
fn read_rows<'a, C: TakesRows>(
    card: &mut C,
    count: u8,
    bytes: &'a [u8],
) -> Result<&'a [u8], Refusal>
    ensures { MatchResult result (λ rest. Ok (record { card = C.shown card.new; left = rest.now }) ≡ read_rows_lem C.part count (C.shown card.old) bytes.now) (λ e. Err e ≡ read_rows_lem C.part count (C.shown card.old) bytes.now) }
{
    let mut rest = bytes;
    for _done in 0..count {
        let Some((row, after)) = rest.split_first_chunk::<ROW_SIZE>() else {
            return Err(Refusal::BytesEndEarly);
        };
        card.take(u64::from_le_bytes(*row))?;
        rest = after;
    }
    Ok(rest)
}

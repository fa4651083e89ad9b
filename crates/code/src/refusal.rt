ghost use Rattle.std.specs.Prelude.{◌≡◌};
ghost use Rattle.code.specs.Refusals.{number_of, layer_of};

use std::error::Error;
use std::fmt;

// The three sections of a card, in the order of its rows.
#[derive(Clone, Copy, PartialEq, Eq, Debug)]
pub enum Section {
    Group,
    Transform,
    Coset,
}

impl fmt::Display for Section {
    fn fmt<W: fmt::Write>(&self, f: &mut fmt::Formatter<W>) -> fmt::Result {
        let name = match *self {
            Section::Group => "group",
            Section::Transform => "transform",
            Section::Coset => "coset",
        };
        write!(f, "{name}")
    }
}

// The part of the product whose user can mend what was refused.
#[derive(Clone, Copy, PartialEq, Eq, Debug)]
pub enum Layer {
    Card,
    Deck,
    Finder,
    Console,
}

impl fmt::Display for Layer {
    fn fmt<W: fmt::Write>(&self, f: &mut fmt::Formatter<W>) -> fmt::Result {
        let name = match *self {
            Layer::Card => "card",
            Layer::Deck => "deck",
            Layer::Finder => "finder",
            Layer::Console => "console",
        };
        write!(f, "{name}")
    }
}

// Why a call was turned down. A section and an index name a row by its place on a card; a place is one of a word.
#[derive(Clone, Copy, PartialEq, Eq, Debug)]
pub enum Refusal {
    LengthOutOfRange,
    DigitBeyondLength { section: Section, index: usize },
    SectionFull { section: Section },
    DependentRow { section: Section, index: usize },
    ConcurrenceBroken { section: Section, index: usize },
    BytesEndEarly,
    BytesLeftOver,
    PassLengthDiffers,
    TooManyPasses,
    BitNotBinary { place: usize },
    LevelOutOfRange { place: usize },
    PlaceOffSheet { place: usize },
    WordLengthDiffers,
    SizeTooLarge { place: usize },
    WorkMemoryShort,
    LayerFull,
    PileFull,
    ListNotPower,
    ListTotalTooLarge,
    OutputShort,
    MessageTooLarge,
    UnknownCommand,
    UnknownLetter { place: usize },
    NotTwoDigits,
    InputTooLong,
}

impl Refusal {
    // The number by which the refusal is known; 21 is not used. A question, as a refusal holds more than its number: no `From`.
    pub fn number(self) -> u8
        ensures { result ≡ number_of self }
    {
        match self {
            Refusal::LengthOutOfRange => 1,
            Refusal::DigitBeyondLength { .. } => 2,
            Refusal::SectionFull { .. } => 3,
            Refusal::DependentRow { .. } => 4,
            Refusal::ConcurrenceBroken { .. } => 5,
            Refusal::BytesEndEarly => 6,
            Refusal::BytesLeftOver => 7,
            Refusal::PassLengthDiffers => 8,
            Refusal::TooManyPasses => 9,
            Refusal::BitNotBinary { .. } => 10,
            Refusal::LevelOutOfRange { .. } => 11,
            Refusal::PlaceOffSheet { .. } => 12,
            Refusal::WordLengthDiffers => 13,
            Refusal::SizeTooLarge { .. } => 14,
            Refusal::WorkMemoryShort => 15,
            Refusal::LayerFull => 16,
            Refusal::PileFull => 17,
            Refusal::ListNotPower => 18,
            Refusal::ListTotalTooLarge => 19,
            Refusal::OutputShort => 20,
            Refusal::MessageTooLarge => 22,
            Refusal::UnknownCommand => 23,
            Refusal::UnknownLetter { .. } => 24,
            Refusal::NotTwoDigits => 25,
            Refusal::InputTooLong => 26,
        }
    }

    // The layer that the refusal belongs to.
    pub fn layer(self) -> Layer
        ensures { result ≡ layer_of (number_of self) }
    {
        match self.number() {
            0..=7 => Layer::Card,
            8..=12 => Layer::Deck,
            13..=22 => Layer::Finder,
            _ => Layer::Console,
        }
    }
}

impl fmt::Display for Refusal {
    fn fmt<W: fmt::Write>(&self, f: &mut fmt::Formatter<W>) -> fmt::Result {
        match *self {
            Refusal::LengthOutOfRange => write!(f, "the word length is not from 1 to 64"),
            Refusal::DigitBeyondLength { section, index } => write!(
                f,
                "{section} row {index} has a digit beyond the word length"
            ),
            Refusal::SectionFull { section } => write!(
                f,
                "the {section} section holds at most eight rows"
            ),
            Refusal::DependentRow { section, index } => write!(
                f,
                "{section} row {index} is a sum of rows already on the card"
            ),
            Refusal::ConcurrenceBroken { section, index } => write!(
                f,
                "{section} row {index} breaks the concurrence of the group"
            ),
            Refusal::BytesEndEarly => write!(f, "the bytes end before the card does"),
            Refusal::BytesLeftOver => write!(f, "bytes are left over after the card"),
            Refusal::PassLengthDiffers => write!(f, "the pass and the sheet differ in length"),
            Refusal::TooManyPasses => write!(f, "the sheet has taken 1024 passes already"),
            Refusal::BitNotBinary { place } => write!(
                f,
                "the bit at place {place} is neither 0 nor 1"
            ),
            Refusal::LevelOutOfRange { place } => write!(
                f,
                "the level at place {place} is not a number from -1 to 1"
            ),
            Refusal::PlaceOffSheet { place } => write!(f, "place {place} is not on the sheet"),
            Refusal::WordLengthDiffers => write!(f, "the word and the finder differ in length"),
            Refusal::SizeTooLarge { place } => write!(
                f,
                "the reading at place {place} has a size above 2^20"
            ),
            Refusal::WorkMemoryShort => write!(f, "the work memory is below the finder's need"),
            Refusal::LayerFull => write!(f, "the coset layer has four rows already"),
            Refusal::PileFull => write!(f, "the pile has 24 rows already"),
            Refusal::ListNotPower => write!(
                f,
                "the length of the list is not 2^t with t from 0 to 16"
            ),
            Refusal::ListTotalTooLarge => write!(f, "the sizes of the list total above 2^28"),
            Refusal::OutputShort => write!(f, "the output memory is too short"),
            Refusal::MessageTooLarge => write!(
                f,
                "the message is not below 2^k for the code's k rows"
            ),
            Refusal::UnknownCommand => write!(
                f,
                "the line is empty, has no known command, or has bytes after one that takes none"
            ),
            Refusal::UnknownLetter { place } => write!(
                f,
                "the letter at place {place} stands for no sample"
            ),
            Refusal::NotTwoDigits => write!(f, "the command is not followed by two digits"),
            Refusal::InputTooLong => write!(f, "the input is longer than 65536 bytes"),
        }
    }
}

impl Error for Refusal {}

// A refusal that is shown with its number and its layer before its words.
#[derive(Clone, Copy)]
pub struct Numbered(pub Refusal);

impl fmt::Display for Numbered {
    fn fmt<W: fmt::Write>(&self, f: &mut fmt::Formatter<W>) -> fmt::Result {
        let refusal = self.0;
        let number = refusal.number();
        let layer = refusal.layer();
        write!(f, "refused with {number}, of the {layer}: {refusal}")
    }
}

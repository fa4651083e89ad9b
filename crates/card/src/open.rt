// A card whose state is known only when the program runs.
ghost use Rattle.std.specs.Prelude.{◌≡◌, ◌∷◌, [], ◌++◌, OnErr, OnOk};
ghost use Rattle.code.specs.declared.refusal.Section.TheVariants.{Group};
ghost use Rattle.card.specs.Cards.{added, blank, Lawful, NoneAfter, rows_of, Told, verdict};
ghost use Rattle.card.specs.OpenCards.{card_in, open_in, open_of, section_after, shown};

use crate::states::{CosetCard, FinishedCard, GroupCard, TransformCard};
use code::length::WordLength;
use code::refusal::{Refusal, Section};

// A card that takes rows, in one of its three states.
#[derive(PartialEq, Eq, Debug, Drop)]
pub enum OpenCard {
    InGroup(GroupCard),
    InTransform(TransformCard),
    InCoset(CosetCard),
}

// A card in any of the four states.
#[derive(PartialEq, Eq, Debug, Drop)]
pub enum AnyCard {
    Open(OpenCard),
    Finished(FinishedCard),
}

impl OpenCard {
    // A card just started, with no rows.
    pub fn new(len: WordLength) -> OpenCard
        ensures card { shown result ≡ blank len }
        ensures section { open_of result ≡ Group }
        ensures lawful { Lawful (shown result) }
    {
        OpenCard::InGroup(GroupCard::new(len))
    }

    // The section that is open.
    pub fn open_section(&self) -> Section
        ensures { result ≡ open_of self.now }
    {
        match self {
            OpenCard::InGroup(_) => Section::Group,
            OpenCard::InTransform(_) => Section::Transform,
            OpenCard::InCoset(_) => Section::Coset,
        }
    }

    // Adds a row to the open section, or turns it down and leaves the card as it was.
    pub fn add_row(&mut self, row: u64) -> Result<(), Refusal>
        ensures answer { result ≡ verdict (shown self.old) (open_of self.old) row }
        ensures told { Told (shown self.old) (open_of self.old) row result }
        ensures card { shown self.new ≡ added result (shown self.old) (open_of self.old) row }
        ensures section { open_of self.new ≡ open_of self.old }
        ensures refused { OnErr result (self.new ≡ self.old) }
        ensures last { OnOk result (rows_of (shown self.new) ≡ rows_of (shown self.old) ++ row ∷ []) }
        ensures none_after { NoneAfter (shown self.new) (open_of self.new) }
        ensures lawful { Lawful (shown self.new) }
    {
        match self {
            OpenCard::InGroup(card) => card.add_row(row),
            OpenCard::InTransform(card) => card.add_row(row),
            OpenCard::InCoset(card) => card.add_row(row),
        }
    }

    // The same card in its next state.
    pub fn move_on(self) -> AnyCard
        ensures card { card_in result ≡ shown self }
        ensures section { open_in result ≡ section_after (open_of self) }
        ensures none_after { NoneAfter (shown self) (open_of self) }
        ensures lawful { Lawful (card_in result) }
    {
        match self {
            OpenCard::InGroup(card) => AnyCard::Open(OpenCard::InTransform(card.close_group())),
            OpenCard::InTransform(card) => AnyCard::Open(OpenCard::InCoset(card.close_transform())),
            OpenCard::InCoset(card) => AnyCard::Finished(card.finish()),
        }
    }

    // The same card, taking no more rows.
    pub fn finish(self) -> FinishedCard
        ensures card { result ≡ shown self }
        ensures lawful { Lawful result }
    {
        match self {
            OpenCard::InGroup(card) => card.close_group().close_transform().finish(),
            OpenCard::InTransform(card) => card.close_transform().finish(),
            OpenCard::InCoset(card) => card.finish(),
        }
    }
}

impl AnyCard {
    // The same card, taking no more rows.
    pub fn finish(self) -> FinishedCard
        ensures card { result ≡ card_in self }
        ensures lawful { Lawful result }
    {
        let finished = match self {
            AnyCard::Open(card) => card.finish(),
            AnyCard::Finished(card) => card,
        };
        // The call shows that the card is lawful.
        let _ = finished.word_length();
        finished
    }
}

ghost use Rattle.std.specs.Prelude.{◌≡◌, ◌≤◌, ◌∷◌, [], ◌++◌, length, IfOk, OnErr, OnOk};
ghost use Rattle.code.specs.declared.refusal.Section.TheVariants.{Group, Transform, Coset};
ghost use Rattle.card.specs.Cards.{added, blank, card_rows, encoded, Lawful, NoneAfter, Only, rows_of, section_of, max_section_rows, Told, verdict};

use super::{CosetCard, FinishedCard, GroupCard, TransformCard};
use crate::table::Table;
use code::length::WordLength;
use code::refusal::{Refusal, Section};

// The states are four types by a rule of the project, so each has a contract of its own for `add_row`.
// The clauses `lawful` and `none_after` tell callers what the invariants of the types hold.
impl GroupCard {
    // A card just started, with no rows.
    pub fn new(len: WordLength) -> GroupCard
        ensures card { result ≡ blank len }
        ensures lawful { Lawful result }
    {
        GroupCard {
            table: Table::new(len),
        }
    }

    // Adds a group row, or turns it down and leaves the card as it was.
    pub fn add_row(&mut self, row: u64) -> Result<(), Refusal>
        ensures answer { result ≡ verdict self.old Group row }
        ensures told { Told self.old Group row result }
        ensures card { self.new ≡ added result self.old Group row }
        ensures refused { OnErr result (self.new ≡ self.old) }
        ensures last { OnOk result (rows_of self.new ≡ rows_of self.old ++ row ∷ []) }
        ensures none_after { NoneAfter self.new Group }
        ensures lawful { Lawful self.new }
    {
        self.table.push(Section::Group, row)
    }

    // The same card, taking transform rows.
    pub fn close_group(self) -> TransformCard
        ensures card { result ≡ self }
        ensures none_after { NoneAfter self Group }
        ensures lawful { Lawful result }
    {
        TransformCard { table: self.table }
    }
}

impl TransformCard {
    // Adds a transform row, or turns it down and leaves the card as it was.
    pub fn add_row(&mut self, row: u64) -> Result<(), Refusal>
        ensures answer { result ≡ verdict self.old Transform row }
        ensures told { Told self.old Transform row result }
        ensures card { self.new ≡ added result self.old Transform row }
        ensures refused { OnErr result (self.new ≡ self.old) }
        ensures last { OnOk result (rows_of self.new ≡ rows_of self.old ++ row ∷ []) }
        ensures none_after { NoneAfter self.new Transform }
        ensures lawful { Lawful self.new }
    {
        self.table.push(Section::Transform, row)
    }

    // The same card, taking coset rows.
    pub fn close_transform(self) -> CosetCard
        ensures card { result ≡ self }
        ensures none_after { NoneAfter self Transform }
        ensures lawful { Lawful result }
    {
        CosetCard { table: self.table }
    }
}

impl CosetCard {
    // Adds a coset row, or turns it down and leaves the card as it was.
    pub fn add_row(&mut self, row: u64) -> Result<(), Refusal>
        ensures answer { result ≡ verdict self.old Coset row }
        ensures told { Told self.old Coset row result }
        ensures card { self.new ≡ added result self.old Coset row }
        ensures refused { OnErr result (self.new ≡ self.old) }
        ensures last { OnOk result (rows_of self.new ≡ rows_of self.old ++ row ∷ []) }
        ensures lawful { Lawful self.new }
    {
        self.table.push(Section::Coset, row)
    }

    // The same card, taking no more rows.
    pub fn finish(self) -> FinishedCard
        ensures card { result ≡ self }
        ensures lawful { Lawful result }
    {
        FinishedCard { table: self.table }
    }
}

impl FinishedCard {
    // Length 1 and no rows.
    pub fn new() -> FinishedCard
        ensures card { result ≡ blank 1 }
        ensures lawful { Lawful result }
    {
        let Ok(shortest) = WordLength::new(1) else {
            unreachable()
        };
        FinishedCard {
            table: Table::new(shortest),
        }
    }

    // The code word of a message below 2^k, where k is the number of rows. No other message has the same word.
    pub fn encode(&self, message: u64) -> Result<u64, Refusal>
        ensures answer { result ≡ encoded self.now message }
        ensures distinct { IfOk result (λ w. Only self.now message w) }
    {
        self.table.encode(message)
    }

    // The length of the card's words.
    pub fn word_length(&self) -> WordLength
        ensures value { result ≡ self.now.len }
        ensures lawful { Lawful self.now }
    {
        self.table.word_length()
    }

    // The rows of a section.
    pub fn section_rows(&self, section: Section) -> &[u64]
        ensures value { result.now ≡ section_of self.now section }
        ensures few { length result.now ≤ max_section_rows }
        ensures lawful { Lawful self.now }
    {
        self.table.section_rows(section)
    }

    // All rows, in the order group, transform, coset.
    pub fn rows(&self) -> &[u64]
        ensures value { result.now ≡ rows_of self.now }
        ensures few { length result.now ≤ card_rows }
        ensures lawful { Lawful self.now }
    {
        self.table.all_rows()
    }
}

ghost use Rattle.std.specs.Prelude.{◌≡◌, ◌∷◌, [], ◌++◌, IfOk, OnErr, OnOk};
ghost use Rattle.card.specs.Cards.{added, blank, encoded, Lawful, NoneAfter, Only, rows_of, Told, verdict};

use super::{Table, put};
use code::length::WordLength;
use code::refusal::{Refusal, Section};
use code::rows::Rows;
use code::words::word_of;

impl Table {
    // A table with no rows.
    pub(crate) fn new(len: WordLength) -> Table
        ensures card { result ≡ blank len }
        ensures lawful { Lawful result }
    {
        // The call shows that the length is lawful.
        let _ = len.places();
        Table {
            len,
            rows: Rows::new(),
            group: 0,
            transform: 0,
        }
    }

    // Adds a row to a section after which none has rows, or turns it down.
    pub(crate) fn push(&mut self, section: Section, row: u64) -> Result<(), Refusal>
        requires { NoneAfter self.old section }
        ensures answer { result ≡ verdict self.old section row }
        ensures told { Told self.old section row result }
        ensures card { self.new ≡ added result self.old section row }
        ensures refused { OnErr result (self.new ≡ self.old) }
        ensures last { OnOk result (rows_of self.new ≡ rows_of self.old ++ row ∷ []) }
        ensures none_after { NoneAfter self.new section }
        ensures lawful { Lawful self.new }
    {
        self.check(section, row)?;
        put(&mut self.rows, row);
        match section {
            Section::Group => self.group += 1,
            Section::Transform => self.transform += 1,
            Section::Coset => {}
        }
        Ok(())
    }

    // The code word of a message.
    pub(crate) fn encode(&self, message: u64) -> Result<u64, Refusal>
        ensures answer { result ≡ encoded self.now message }
        ensures distinct { IfOk result (λ w. Only self.now message w) }
    {
        let rows = self.all_rows();
        if message >> rows.len() != 0 {
            return Err(Refusal::MessageTooLarge);
        }
        Ok(word_of(rows, message))
    }
}

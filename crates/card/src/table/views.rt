ghost use Rattle.std.specs.Prelude.{◌≡◌, ◌≤◌, length};
ghost use Rattle.card.specs.Cards.{Lawful, rows_of, section_of, max_section_rows, card_rows};

use super::Table;
use code::length::WordLength;
use code::refusal::Section;

impl Table {
    // The length of the card's words.
    pub(crate) fn word_length(&self) -> WordLength
        ensures value { result ≡ self.now.len }
        ensures lawful { Lawful self.now }
    {
        self.len
    }

    // The rows of a section.
    pub(crate) fn section_rows(&self, section: Section) -> &[u64]
        ensures value { result.now ≡ section_of self.now section }
        ensures few { length result.now ≤ max_section_rows }
        ensures lawful { Lawful self.now }
    {
        let rows = self.rows.as_slice();
        let first_coset = self.group + self.transform;
        match section {
            Section::Group => &rows[..self.group],
            Section::Transform => &rows[self.group..first_coset],
            Section::Coset => &rows[first_coset..],
        }
    }

    // All rows.
    pub(crate) fn all_rows(&self) -> &[u64]
        ensures value { result.now ≡ rows_of self.now }
        ensures few { length result.now ≤ card_rows }
        ensures lawful { Lawful self.now }
    {
        self.rows.as_slice()
    }
}

ghost use Rattle.std.specs.Prelude.{◌≡◌, ◌^◌, ◌<◌, length, nat_le};
ghost use Rattle.code.specs.Limits.{Length};
ghost use Rattle.card.specs.Rows.{dependent};
ghost use Rattle.card.specs.Cards.{keeps, rows_of, section_of, max_section_rows, verdict};

use super::{SECTION_ROWS, Table};
use crate::concurrence::concurs;
use crate::dependence::is_dependent;
use code::limits::MAX_PLACES;
use code::refusal::{Refusal, Section};

// Whether a row has a digit beyond so many places; `within` of `coset_layer` is of lengths that are no word lengths, and shared it would be no plainer.
fn is_beyond(places: usize, row: u64) -> bool
    requires { Length places }
    ensures { result ≡ nat_le (2 ^ places) row }
{
    places < MAX_PLACES && row >> places != 0
}

impl Table {
    // Whether a row has a digit beyond the word length.
    fn has_digit_beyond(&self, row: u64) -> bool
        ensures { result ≡ nat_le (2 ^ self.now.len) row }
    {
        is_beyond(self.len.places(), row)
    }

    // How many rows a section has.
    fn count(&self, section: Section) -> usize
        ensures { result ≡ length (section_of self.now section) }
    {
        self.section_rows(section).len()
    }

    // Whether a section holds as many rows as it may.
    fn is_full(&self, section: Section) -> bool
        ensures { result ≡ nat_le max_section_rows (length (section_of self.now section)) }
    {
        self.count(section) >= SECTION_ROWS
    }

    // Whether a row is the sum of a choice of the rows.
    fn depends(&self, row: u64) -> bool
        ensures { result ≡ dependent (rows_of self.now) row }
    {
        is_dependent(self.all_rows(), row)
    }

    // Whether a new row keeps the concurrence of the group.
    fn keeps(&self, section: Section, row: u64) -> bool
        requires { row < 2 ^ self.now.len }
        ensures { result ≡ keeps self.now section row }
    {
        match section {
            Section::Group => concurs(self.section_rows(Section::Group), row),
            Section::Transform | Section::Coset => true,
        }
    }

    // The four checks of a row that is to be added to a section.
    pub(crate) fn check(&self, section: Section, row: u64) -> Result<(), Refusal>
        ensures { result ≡ verdict self.now section row }
    {
        let index = self.count(section);
        if self.has_digit_beyond(row) {
            return Err(Refusal::DigitBeyondLength { section, index });
        }
        if self.is_full(section) {
            return Err(Refusal::SectionFull { section });
        }
        if self.depends(row) {
            return Err(Refusal::DependentRow { section, index });
        }
        if !self.keeps(section, row) {
            return Err(Refusal::ConcurrenceBroken { section, index });
        }
        Ok(())
    }
}

ghost use Rattle.std.specs.Prelude.{◌≡◌, ◌+◌, ◌<◌, ◌≤◌, [], ◌∷◌, ◌++◌, length, take, IfOk, Ok};
ghost use Rattle.card.specs.Cards.{max_section_rows};
ghost use Rattle.card_file.specs.Files.{overwritten, wrote};
ghost use Rattle.card_text.specs.Drafts.{read_text_lem};
ghost use Rattle.card_text.specs.Texts.{decimal_text, digits_of, length_line, row_line, section_text, text_of};
ghost use Rattle.card_text.specs.Writers.{HasRoom, Wrote};

use crate::line::{LENGTH, SPACE, ZERO, word_of};
use card::states::FinishedCard;
use code::length::WordLength;
use code::refusal::{Refusal, Section};

// The number from which on a decimal has two digits.
const TEN: usize = 10;

// The bytes of a length line of one decimal digit, the one byte of a space, and the one that ends a line.
const SHORT_LENGTH_LINE: usize = 9;

const SPACE_SIZE: usize = 1;

const LINE_END: usize = 1;

// Writes the card's text, or refuses where it does not fit. What is written is read back as the same card.
pub fn write_text(card: &FinishedCard, out: &mut [u8]) -> Result<usize, Refusal>
    ensures answer { result ≡ wrote (text_of card.now) (length out.old) }
    ensures bytes { out.new ≡ overwritten (text_of card.now) out.old }
    ensures back { IfOk result (λ end. read_text_lem (take end out.new) ≡ Ok card.now) }
{
    write_lines(card, out)
}

// The text, line by line. `write_text` hands on to it, so that it needs no proof file and a must-fail edit there is refused by a fact.
fn write_lines(card: &FinishedCard, out: &mut [u8]) -> Result<usize, Refusal>
    ensures answer { result ≡ wrote (text_of card.now) (length out.old) }
    ensures bytes { out.new ≡ overwritten (text_of card.now) out.old }
    ensures back { IfOk result (λ end. read_text_lem (take end out.new) ≡ Ok card.now) }
{
    let len = card.word_length();
    let group = card.section_rows(Section::Group);
    let transform = card.section_rows(Section::Transform);
    let coset = card.section_rows(Section::Coset);
    let rows = rows_size(Section::Group, len, group)
        + rows_size(Section::Transform, len, transform)
        + rows_size(Section::Coset, len, coset);
    if out.len() < length_size(len) + rows {
        return Err(Refusal::OutputShort);
    }
    let mut writer = TextWriter {
        memory: out,
        end: 0,
    };
    writer.write_length(len);
    writer.write_rows(Section::Group, len, group);
    writer.write_rows(Section::Transform, len, transform);
    writer.write_rows(Section::Coset, len, coset);
    Ok(writer.end)
}

// How many bytes the line of the length takes.
fn length_size(len: WordLength) -> usize
    ensures value { result ≡ length (length_line len) }
    ensures bound { result ≤ 10 }
{
    if len.places() < TEN {
        return SHORT_LENGTH_LINE;
    }
    SHORT_LENGTH_LINE + 1
}

// How many bytes the lines of a section take.
fn rows_size(section: Section, len: WordLength, rows: &[u64]) -> usize
    requires { length rows.now ≤ max_section_rows }
    ensures value { result ≡ length (section_text section len rows.now) }
    ensures bound { result ≤ 600 }
{
    rows.len() * (word_of(section).len() + SPACE_SIZE + len.places() + LINE_END)
}

// The memory lent for a text, and where the text written so far ends in it.
#[derive(Drop)]
struct TextWriter<'a> {
    memory: &'a mut [u8],
    end: usize,
}

impl<'a> TextWriter<'a> {
    // Writes bytes after those written so far, as the writers below do too.
    fn write_bytes(&mut self, bytes: &[u8])
        requires { HasRoom bytes.now self.old }
        ensures { Wrote bytes.now self.old self.new }
    {
        let end = self.end + bytes.len();
        self.memory[self.end..end].copy_from_slice(bytes);
        self.end = end;
    }

    // Writes the word that a line begins with, and a space.
    fn write_word(&mut self, word: &[u8])
        requires { HasRoom (word.now ++ 32 ∷ []) self.old }
        ensures { Wrote (word.now ++ 32 ∷ []) self.old self.new }
    {
        self.write_bytes(word);
        self.write_bytes(&[SPACE]);
    }

    // Writes the line of the length.
    fn write_length(&mut self, len: WordLength)
        requires { HasRoom (length_line len) self.old }
        ensures { Wrote (length_line len) self.old self.new }
    {
        self.write_word(LENGTH);
        self.write_decimal(len.places());
        self.write_bytes(b"\n");
    }

    // Writes a number in one or two decimal digits.
    fn write_decimal(&mut self, number: usize)
        requires small { number < 100 }
        requires room { HasRoom (decimal_text number) self.old }
        ensures { Wrote (decimal_text number) self.old self.new }
    {
        let last = ZERO + (number % TEN) as u8;
        if number < TEN {
            self.write_bytes(&[last]);
        } else {
            self.write_bytes(&[ZERO + (number / TEN) as u8, last]);
        }
    }

    // Writes the lines of a section.
    fn write_rows(&mut self, section: Section, len: WordLength, rows: &[u64])
        requires { HasRoom (section_text section len rows.now) self.old }
        ensures { Wrote (section_text section len rows.now) self.old self.new }
    {
        for row in rows {
            self.write_row(section, len, *row);
        }
    }

    // Writes the line of a row.
    fn write_row(&mut self, section: Section, len: WordLength, row: u64)
        requires { HasRoom (row_line section len row) self.old }
        ensures { Wrote (row_line section len row) self.old self.new }
    {
        self.write_word(word_of(section));
        self.write_digits(len, row);
        self.write_bytes(b"\n");
    }

    // Writes the first digits of a row, place 0 first.
    fn write_digits(&mut self, len: WordLength, row: u64)
        requires { HasRoom (digits_of len row) self.old }
        ensures { Wrote (digits_of len row) self.old self.new }
    {
        let end = self.end + len.places();
        fill_digits(&mut self.memory[self.end..end], row);
        self.end = end;
    }
}

// Fills memory with the digits of a row.
fn fill_digits(digits: &mut [u8], row: u64)
    ensures { digits.new ≡ digits_of (length digits.old) row }
{
    let mut rest = row;
    for digit in digits.iter_mut() {
        *digit = ZERO + (rest % 2) as u8;
        rest /= 2;
    }
}

// What stands in a line of a card's text.
ghost use Rattle.std.specs.Prelude.{◌≡◌, ◌+◌, ◌-◌, ◌*◌, ◌≤◌, cond, length, drop, take, Some, None, ◌==◌, [], ◌∷◌, ◌++◌};
ghost use Rattle.std.specs.List.{position};
ghost use Rattle.card_text.specs.Lines.{decimal_of_lem, first_odd_lem, is_binary_lem, is_decimal_lem, keyword_of_lem, passed_over, row_of, row_read, trimmed, word_length_lem};
ghost use Rattle.card_text.specs.Texts.{label_of};

use crate::fault::Problem;
use code::length::WordLength;
use code::refusal::Section;

// The first word of a line. `Unknown` is a variant, since with an `Option` of the other two one match would become two.
#[derive(Clone, Copy)]
pub(crate) enum Keyword {
    Length,
    Row(Section),
    Unknown,
}

// The byte that ends a line.
pub(crate) const NEWLINE: u8 = b'\n';

const RETURN: u8 = b'\r';

const COMMENT: u8 = b'#';

pub(crate) const SPACE: u8 = b' ';

pub(crate) const ZERO: u8 = b'0';

// The words that lines begin with.
pub(crate) const LENGTH: &[u8] = b"length";

const GROUP: &[u8] = b"group";

const TRANSFORM: &[u8] = b"transform";

const COSET: &[u8] = b"coset";

// The line without a carriage return at its end.
pub(crate) fn without_return(line: &[u8]) -> &[u8]
    ensures { result.now ≡ trimmed line.now }
{
    match line {
        [front @ .., RETURN] => front,
        _ => line,
    }
}

// Whether a line says nothing: it is empty or begins with the mark of a comment.
pub(crate) fn is_passed_over(line: &[u8]) -> bool
    ensures { result ≡ passed_over line.now }
{
    matches!(line, [] | [COMMENT, ..])
}

// Where the first space stands.
fn first_space(line: &[u8]) -> Option<usize>
    ensures { result ≡ position (λ b. b == 32) line.now }
{
    line.iter().position(|byte| *byte == SPACE)
}

// The first word of a line, and what follows the space after it.
pub(crate) fn split_word(line: &[u8]) -> (&[u8], &[u8])
    ensures word { result.0.now ≡ take (word_length_lem line.now) line.now }
    ensures rest { result.1.now ≡ drop (word_length_lem line.now + 1) line.now }
{
    match first_space(line) {
        Some(end) => (&line[..end], &line[end + 1..]),
        None => (line, &[]),
    }
}

// What a word says of its line. As a `From` of bytes it would be no plainer: it reads text, and has one caller.
pub(crate) fn keyword_of(word: &[u8]) -> Keyword
    ensures { result ≡ keyword_of_lem word.now }
{
    match word {
        LENGTH => Keyword::Length,
        GROUP => Keyword::Row(Section::Group),
        TRANSFORM => Keyword::Row(Section::Transform),
        COSET => Keyword::Row(Section::Coset),
        _ => Keyword::Unknown,
    }
}

// The word that a line of a section begins with.
pub(crate) fn word_of(section: Section) -> &'static [u8]
    ensures value { result.now ++ 32 ∷ [] ≡ label_of section }
    ensures bound { length result.now ≤ 9 }
{
    match section {
        Section::Group => GROUP,
        Section::Transform => TRANSFORM,
        Section::Coset => COSET,
    }
}

// The number that a decimal digit is.
fn digit_of(byte: u8) -> Option<usize>
    ensures { result ≡ cond (is_decimal_lem byte) (Some (byte - 48)) None }
{
    byte.is_ascii_digit().then(|| usize::from(byte - ZERO))
}

// The number that one or two decimal digits are.
pub(crate) fn decimal_of(digits: &[u8]) -> Option<usize>
    ensures { result ≡ decimal_of_lem digits.now }
{
    match digits {
        [ones] => digit_of(*ones),
        [tens, ones] => Some(10 * digit_of(*tens)? + digit_of(*ones)?),
        _ => None,
    }
}

// Whether a byte is the digit 0 or 1.
fn is_binary(byte: u8) -> bool
    ensures { result ≡ is_binary_lem byte }
{
    matches!(byte, b'0' | b'1')
}

// The first place whose digit is neither 0 nor 1.
fn first_odd(digits: &[u8]) -> Option<usize>
    ensures { result ≡ first_odd_lem 0 digits.now }
{
    digits.iter().position(|digit| !is_binary(*digit))
}

// The row with those digits, place 0 first.
fn row_of(digits: &[u8]) -> u64
    requires { length digits.now ≤ 64 }
    ensures { result ≡ row_of digits.now }
{
    let mut row = 0;
    for digit in digits.iter().rev() {
        row = 2 * row + u64::from(*digit % 2);
    }
    row
}

// The row that a line of a section describes.
pub(crate) fn read_row(length: WordLength, section: Section, digits: &[u8]) -> Result<u64, Problem>
    ensures { result ≡ row_read length section digits.now }
{
    let places = length.places();
    if digits.len() != places {
        return Err(Problem::DigitCount {
            section,
            digits: digits.len(),
            places,
        });
    }
    if let Some(place) = first_odd(digits) {
        return Err(Problem::NotBinary { section, place });
    }
    Ok(row_of(digits))
}

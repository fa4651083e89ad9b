ghost use Rattle.std.specs.Prelude.{◌≡◌};

use code::refusal::{Refusal, Section};
use std::error::Error;
use std::fmt;

// What is wrong with a line of a card's text. A refusal is the card's own.
#[derive(Clone, Copy, PartialEq, Eq, Debug)]
pub enum Problem {
    UnknownKeyword,
    LengthMissing,
    LengthAgain,
    LengthNotDecimal,
    SectionClosed {
        section: Section,
    },
    DigitCount {
        section: Section,
        digits: usize,
        places: usize,
    },
    NotBinary {
        section: Section,
        place: usize,
    },
    Refused {
        refusal: Refusal,
    },
}

impl fmt::Display for Problem {
    fn fmt<W: fmt::Write>(&self, f: &mut fmt::Formatter<W>) -> fmt::Result {
        match *self {
            Problem::UnknownKeyword => write!(
                f,
                "the line begins with none of the words length, group, transform and coset"
            ),
            Problem::LengthMissing => write!(f, "no line so far gives the length"),
            Problem::LengthAgain => write!(f, "the length was given before"),
            Problem::LengthNotDecimal => write!(f, "the length is not one or two decimal digits"),
            Problem::SectionClosed { section } => write!(
                f,
                "{section} row after the {section} section was closed"
            ),
            Problem::DigitCount {
                section,
                digits,
                places,
            } => write!(
                f,
                "{section} row of {digits} digits, where the length is {places}"
            ),
            Problem::NotBinary { section, place } => write!(
                f,
                "{section} row whose digit at place {place} is neither 0 nor 1"
            ),
            Problem::Refused { refusal } => {
                let number = refusal.number();
                write!(f, "refusal {number}: {refusal}")
            }
        }
    }
}

impl Error for Problem {}

impl From<Refusal> for Problem {
    ghost use Rattle.card_text.specs.declared.fault.Problem.TheVariants.{Refused};

    ghost from_gives = { λ refusal problem. problem ≡ Refused refusal };

    fn from(refusal: Refusal) -> Problem {
        Problem::Refused { refusal }
    }
}

// A line of a text, counted from 1, and what is wrong with it.
#[derive(Clone, Copy, PartialEq, Eq, Debug)]
pub struct TextFault {
    pub line: usize,
    pub problem: Problem,
}

impl fmt::Display for TextFault {
    fn fmt<W: fmt::Write>(&self, f: &mut fmt::Formatter<W>) -> fmt::Result {
        write!(f, "line {}: {}", self.line, self.problem)
    }
}

impl Error for TextFault {}

// Why a text was not made into a file, or a file not shown as text: a fault of the text, or a refusal of the file or of
// the memory for the result.
#[derive(Clone, Copy, PartialEq, Eq, Debug)]
pub enum Fault {
    InText { fault: TextFault },
    Refused { refusal: Refusal },
}

impl fmt::Display for Fault {
    fn fmt<W: fmt::Write>(&self, f: &mut fmt::Formatter<W>) -> fmt::Result {
        match *self {
            Fault::InText { fault } => write!(f, "{fault}"),
            Fault::Refused { refusal } => write!(f, "{}", Problem::from(refusal)),
        }
    }
}

impl Error for Fault {}

impl From<TextFault> for Fault {
    ghost use Rattle.card_text.specs.declared.fault.Fault.TheVariants.{InText};

    ghost from_gives = { λ inner fault. fault ≡ InText inner };

    fn from(fault: TextFault) -> Fault {
        Fault::InText { fault }
    }
}

impl From<Refusal> for Fault {
    ghost use Rattle.card_text.specs.declared.fault.Fault.TheVariants.{Refused};

    ghost from_gives = { λ refusal fault. fault ≡ Refused refusal };

    fn from(refusal: Refusal) -> Fault {
        Fault::Refused { refusal }
    }
}

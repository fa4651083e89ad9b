use crate::{PLACES, ROWS};
use code::length::WordLength;
use code::spaced::Spaced;
use code::words::word_of;
use finder::fold::columns;
use std::{fmt, io};

// A word, shown as its digits, place 0 first.
#[derive(Clone, Copy)]
pub(crate) struct Digits(pub u64);

impl fmt::Display for Digits {
    fn fmt<W: fmt::Write>(&self, f: &mut fmt::Formatter<W>) -> fmt::Result {
        for place in 0..PLACES {
            write!(f, "{}", self.0 >> place & 1)?;
        }
        Ok(())
    }
}

// Prints the rows of the code and the column of each place.
pub(crate) fn show_code(rt: &HostRuntime, length: WordLength) -> io::Result<()> {
    println!(rt; "The code has words of {PLACES} places and 4 rows, here with place 0 first:")?;
    for (j, row) in ROWS.iter().enumerate() {
        println!(rt; "  row {j}: {}", Digits(*row))?;
    }
    println!(rt; "A message is a number from 0 to 15; its bit j chooses row j.")?;
    println!(rt; "Its code word has digit 1 where an odd number of the chosen rows has it.")?;
    println!(rt; "Played at full level, digit 0 reads 1024 and digit 1 reads -1024.")?;
    println!(rt;
        "The column of a place is the number whose bit j is row j's digit there: {}",
        Spaced(&columns(&ROWS, length)[..PLACES])
    )
}

// Prints a message and its code word.
pub(crate) fn show_message(rt: &HostRuntime, message: u64) -> io::Result<()> {
    println!(rt;
        "Message {message} is recorded. Its code word: {}",
        Digits(word_of(&ROWS, message))
    )
}

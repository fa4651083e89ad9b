#![tactic(auto)]

// Texts and files of cards: what becomes of each, and what is said of those that are refused.
mod files;
mod texts;
mod trips;

use anyhow::{anyhow, bail};
use card_text::convert::{make_file, show_file};
use card_text::fault::Fault;
use std::{fmt, io};

// More bytes than a file or a text of a card has.
const OUTPUT_SIZE: usize = 2048;

// What is said where standard output cannot be written.
fn unwritten(error: io::Error) -> anyhow::Error {
    anyhow!("Output {{ error: {error:?} }}")
}

// Prints a text or a file and why it is refused.
fn refused<T: fmt::Debug + Drop>(
    rt: &HostRuntime,
    input: T,
    answer: Result<usize, Fault>,
) -> anyhow::Result<()> {
    let Err(fault) = answer else {
        bail!("{input:?} is not refused");
    };
    println!(rt; "{input:?}: {fault}").map_err(unwritten)?;
    Ok(())
}

fn run(rt: &HostRuntime) -> anyhow::Result<()> {
    for text in texts::OF_E {
        trips::expect_code_e(text.as_bytes())?;
    }
    println!(rt;
        "the text of code E, in four forms, is made into the bytes of its file, which are shown as the text"
    ).map_err(unwritten)?;
    let (text, file) = trips::full_card()?;
    println!(rt;
        "a card of length 64 with 24 rows: {text} bytes of text, made into the {file} bytes of its file, shown as the same text"
    ).map_err(unwritten)?;
    trips::expect_short_memory_refused()?;
    println!(rt;
        "memory that is a byte too short for a text is refused and stays as it was"
    ).map_err(unwritten)?;
    for text in texts::REFUSED {
        refused(rt, text, make_file(text.as_bytes(), &mut [0; OUTPUT_SIZE]))?;
    }
    for file in files::REFUSED {
        refused(rt, file, show_file(file, &mut [0; OUTPUT_SIZE]))?;
    }
    Ok(())
}

fn main(rt: HostRuntime) -> anyhow::Result<()> {
    run(&rt)
}

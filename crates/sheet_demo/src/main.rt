#![tactic(auto)]

mod lists;
mod sheets;

use anyhow::{Result, anyhow};
use card::states::{FinishedCard, GroupCard};
use code::length::WordLength;
use code::refusal::Refusal;
use lists::run_lists;
use sheets::play_strip;
use std::io;

// The code: words of five places, and four rows whose bit i is the digit at place i.
const PLACES: usize = 5;

const ROWS: [u64; 4] = [3, 6, 12, 17];

// Readings of work memory, enough for both finders of the code.
const WORK: usize = 8;

// The code as a card: rows 0 and 1 are group rows, row 2 is a transform row, row 3 a coset row. A library that programs share for these calls would be no plainer.
fn code_e() -> Result<FinishedCard, Refusal> {
    let mut group = GroupCard::new(WordLength::new(PLACES)?);
    group.add_row(ROWS[0])?;
    group.add_row(ROWS[1])?;
    let mut transform = group.close_group();
    transform.add_row(ROWS[2])?;
    let mut coset = transform.close_transform();
    coset.add_row(ROWS[3])?;
    Ok(coset.finish())
}

// What is said where standard output cannot be written.
fn unwritten(error: io::Error) -> anyhow::Error {
    anyhow!("{error:?}")
}

// Plays a strip on a sheet, and runs a card and a sheet by lists of requests.
fn run(rt: &HostRuntime) -> Result<()> {
    let card = code_e()?;
    println!(rt; "\n== A worn strip played three times ==").map_err(unwritten)?;
    println!(rt; "Message 11 was recorded, with the code word 00101:").map_err(unwritten)?;
    play_strip(rt, &card)?;
    println!(rt; "\n== Lists of requests to a card and its sheet ==").map_err(unwritten)?;
    run_lists(rt, card.word_length())
}

fn main(rt: HostRuntime) -> Result<()> {
    run(&rt)
}

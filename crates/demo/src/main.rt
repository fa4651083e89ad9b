#![tactic(auto)]

mod cards;
mod finders;
mod show;
mod stages;

use cards::cards;
use code::length::WordLength;
use finders::finders;
use show::show_code;
use stages::{one_head, refusals, two_heads};

// The code: words of five places, and four rows whose bit i is the digit at place i.
const PLACES: usize = 5;

const ROWS: [u64; 4] = [3, 6, 12, 17];

fn run(rt: &HostRuntime) -> anyhow::Result<()> {
    println!(rt; "Finding a catalogue number again on a worn strip.")?;
    let length = WordLength::new(PLACES)?;
    show_code(rt, length)?;
    one_head(rt)?;
    two_heads(rt)?;
    refusals(rt)?;
    let card = cards(rt, length)?;
    finders(rt, &card)
}

fn main(rt: HostRuntime) -> anyhow::Result<()> {
    run(&rt)
}

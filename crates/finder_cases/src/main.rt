#![tactic(auto)]

mod compare;
mod plainly;
mod random;
mod trials;

use anyhow::{Result, anyhow};
use random::{Random, random_card};
use std::io;
use trials::{Seen, Trial};

// How many cards, and how many words of each kind for each.
const CARDS: u64 = 500;

const WORDS: u32 = 4;

// What is said where standard output cannot be written.
fn unwritten(error: io::Error) -> anyhow::Error {
    anyhow!("Output {{ error: {error:?} }}")
}

fn run(rt: &HostRuntime) -> Result<()> {
    let mut seen = Seen::default();
    for seed in 1..=CARDS {
        let mut random = Random::new(seed);
        let card = random_card(&mut random)?;
        let mut trial = Trial {
            alloc: rt.alloc(),
            card: &card,
            random,
            seen: &mut seen,
        };
        trial.try_card(WORDS)?;
    }
    println!(rt;
        "{} cards, {} words of both kinds, {} of them with several best messages",
        seen.cards, seen.words, seen.ties
    )
    .map_err(unwritten)?;
    println!(rt;
        "{} searches by plain and group finder under layers and by one of the two: each the plain search's message and weight",
        seen.searches
    )
    .map_err(unwritten)?;
    println!(rt;
        "{} searches by the group finder under a layer of rows that may depend: each the plain search's message and weight",
        seen.layers
    )
    .map_err(unwritten)?;
    println!(rt;
        "{} refused searches: each its refusal, nothing changed",
        seen.refusals
    )
    .map_err(unwritten)?;
    Ok(())
}

fn main(rt: HostRuntime) -> Result<()> {
    run(&rt)
}

#![tactic(auto)]

mod codes;
mod damage;
mod random;
mod trips;

use anyhow::{anyhow, ensure};
use code::refusal::Section;
use codes::Code;
use std::io;

// What is said where standard output cannot be written.
fn unwritten(error: io::Error) -> anyhow::Error {
    anyhow!("Output {{ error: {error:?} }}")
}

fn show_code(rt: &HostRuntime, code: &Code) -> anyhow::Result<()> {
    let rows = code.rows();
    let card = codes::build(code.n, rows.as_slice())?;
    let (name, n, k) = (code.name, code.n, rows.as_slice().len());
    ensure!(
        card.rows().len() == k,
        "the card of {name} does not have {k} rows"
    );
    trips::expect_read_back(&card)?;
    trips::expect_encoded_apart(&card)?;
    let group = card.section_rows(Section::Group).len();
    let transform = card.section_rows(Section::Transform).len();
    let coset = card.section_rows(Section::Coset).len();
    println!(rt;
        "{name} ({n},{k}): built with {group} group, {transform} transform and {coset} coset rows, written, read back the same"
    ).map_err(unwritten)?;
    Ok(())
}

fn run(rt: &HostRuntime) -> anyhow::Result<()> {
    for code in codes::CODES {
        show_code(rt, &code)?;
    }
    let seen = random::dependence()?;
    let (rows, dependent) = (seen.rows, seen.refused);
    println!(rt;
        "dependence beside a search over all choices: {rows} rows, {dependent} of them dependent, all answers the same"
    ).map_err(unwritten)?;
    let seen = random::concurrence()?;
    let (rows, broken) = (seen.rows, seen.refused);
    println!(rt;
        "concurrence beside a count at every place: {rows} rows, {broken} of them breaking it, all answers the same"
    ).map_err(unwritten)?;
    let cuts = damage::truncations()?;
    println!(rt; "a file cut at each of {cuts} places: the bytes end early").map_err(unwritten)?;
    let cases = damage::damaged()?;
    println!(rt;
        "{cases} files with a damaged length, count, row or end: each its own refusal, the card as it was"
    ).map_err(unwritten)?;
    let requests = damage::own_list()?;
    println!(rt; "a list of {requests} requests: each answer as due").map_err(unwritten)?;
    Ok(())
}

fn main(rt: HostRuntime) -> anyhow::Result<()> {
    run(&rt)
}

#![tactic(auto)]

// Makes a card's file of its text, or shows a card's file as text.
use anyhow::{Result, bail, ensure};
use card_text::convert::{make_file, show_file};
use card_text::fault::Fault;
use code::refusal::Refusal;
use std::env;
use std::io::Read;
use std::process::ExitCode;

// The most bytes that are read from standard input.
const INPUT_LIMIT: usize = 65536;

// More bytes than a file or a text of a card has: 196 and 1,746 at most.
const OUTPUT_SIZE: usize = 2048;

// What standard input is: the text of a card that becomes a file, or a file that is shown as text. An enum, since a
// function that makes a function pointer for its caller has no full verdict.
#[derive(Clone, Copy)]
enum Task {
    Make,
    Show,
}

// The task that the arguments name.
fn named_task(rt: &HostRuntime) -> Result<Task> {
    let mut words = env::args(rt)?;
    let _program = words.next();
    let Some(word) = words.next() else {
        return Ok(Task::Make);
    };
    if word.as_str() == "show" && words.next().is_none() {
        return Ok(Task::Show);
    }
    bail!("usage: mkcard < TEXT > CARD makes a card, mkcard show < CARD shows it")
}

fn run(rt: &HostRuntime) -> Result<()> {
    let task = named_task(rt)?;
    let mut input = Vec::new(rt.alloc());
    rt.stdin()
        .take(INPUT_LIMIT as u64 + 1)
        .read_to_end(&mut input)?;
    ensure!(
        input.len() <= INPUT_LIMIT,
        Fault::from(Refusal::InputTooLong)
    );
    let mut out = [0u8; OUTPUT_SIZE];
    let end = match task {
        Task::Make => make_file(input.as_slice(), &mut out)?,
        Task::Show => show_file(input.as_slice(), &mut out)?,
    };
    rt.write_all(&out[0..end])?;
    Ok(())
}

fn main(rt: HostRuntime) -> ExitCode {
    match run(&rt) {
        Ok(()) => ExitCode::SUCCESS,
        Err(error) => {
            let _ = eprintln!(rt; "mkcard: {error}");
            ExitCode::FAILURE
        }
    }
}

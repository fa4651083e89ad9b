use crate::{PLACES, ROWS, WORK, unwritten};
use anyhow::Result;
use card_list::requests::{Answer as CardAnswer, Request as CardRequest};
use code::length::WordLength;
use code::refusal::Numbered;
use reading::level::Level;
use sample::Sample;
use sheet::run::{Answer, Request};
use std::io;
use strip::{Method, run_built};

// The requests to the card, each with what it is called: four rows of the code, one that is dependent, and one too late.
const ROW_REQUESTS: [(&'static str, CardRequest); 9] = [
    ("Group row 3", CardRequest::AddRow { row: ROWS[0] }),
    ("Group row 6", CardRequest::AddRow { row: ROWS[1] }),
    ("Group row 5", CardRequest::AddRow { row: 5 }),
    ("A move on", CardRequest::MoveOn),
    ("Transform row 12", CardRequest::AddRow { row: ROWS[2] }),
    ("A move on", CardRequest::MoveOn),
    ("Coset row 17", CardRequest::AddRow { row: ROWS[3] }),
    ("A move on", CardRequest::MoveOn),
    ("Row 1", CardRequest::AddRow { row: 1 }),
];

// A strip, and the same with a bit that is neither 0 nor 1.
const STRIP: [Sample; 5] = [
    Sample::Level(1.0),
    Sample::Level(0.5),
    Sample::Level(-0.75),
    Sample::Level(-0.25),
    Sample::Level(0.75),
];

const TORN: [Sample; 5] = [
    Sample::Level(1.0),
    Sample::Bit(2),
    Sample::Level(-0.75),
    Sample::Level(-0.25),
    Sample::Level(0.75),
];

const GROUP_SEARCH: Request<'static, Method> = Request::Search(&Method::Group);

const PLAIN_SEARCH: Request<'static, Method> = Request::Search(&Method::Plain);

// The requests to the sheet, each with what it is called.
const SHEET_REQUESTS: [(&'static str, Request<'static, Method>); 9] = [
    (
        "A pass of 1, 0.5, -0.75, -0.25, 0.75",
        Request::Pass(&STRIP),
    ),
    ("A search by the group finder", GROUP_SEARCH),
    ("A search by the plain finder", PLAIN_SEARCH),
    ("A pass with a bit 2 at place 1", Request::Pass(&TORN)),
    ("A strike of place 9", Request::Strike(9)),
    ("A strike of place 0", Request::Strike(0)),
    ("A search by the group finder", GROUP_SEARCH),
    ("A clearing", Request::Clear),
    ("A search by the plain finder", PLAIN_SEARCH),
];

// Prints what each request to the card was answered.
fn show_told(rt: &HostRuntime, told: [CardAnswer; 9]) -> io::Result<()> {
    for ((what, _), answer) in ROW_REQUESTS.iter().zip(told) {
        match answer {
            CardAnswer::Taken => println!(rt; "  {what}: taken")?,
            CardAnswer::Moved => println!(rt; "  {what}: moved on")?,
            CardAnswer::Closed => println!(rt; "  {what}: the card is finished and takes no more")?,
            CardAnswer::Refused { refusal } => println!(rt; "  {what} is {}.", Numbered(refusal))?,
        }
    }
    Ok(())
}

// Prints what each request to the sheet was answered.
fn show_answers(rt: &HostRuntime, answers: [Answer<Level>; 9]) -> io::Result<()> {
    for ((what, _), answer) in SHEET_REQUESTS.iter().zip(answers) {
        match answer {
            Answer::Passed(Ok(count)) => println!(rt; "  {what}: taken as pass {count}")?,
            Answer::Struck(Ok(())) => println!(rt; "  {what}: struck")?,
            Answer::Cleared => println!(rt; "  {what}: laid out anew")?,
            Answer::Searched(Ok(found)) => println!(rt;
                "  {what}: message {} with agreement {}",
                found.message, found.reading
            )?,
            Answer::Passed(Err(refusal))
            | Answer::Struck(Err(refusal))
            | Answer::Searched(Err(refusal)) => println!(rt; "  {what} is {}.", Numbered(refusal))?,
        }
    }
    Ok(())
}

// Builds the card and runs a sheet by one list of requests each, refused ones among them.
pub(crate) fn run_lists(rt: &HostRuntime, length: WordLength) -> Result<()> {
    let mut told = [CardAnswer::Closed; 9];
    let mut answers = [Answer::Cleared; 9];
    let count = run_built(
        length,
        &ROW_REQUESTS.map(|(_, request)| request),
        &mut told,
        &mut [Level { value: 0 }; PLACES],
        &SHEET_REQUESTS.map(|(_, request)| request),
        &mut [Level { value: 0 }; WORK],
        &mut answers,
    )?;
    println!(rt;
        "The card and the sheet answer as follows; the sheet ends with {count} passes."
    ).map_err(unwritten)?;
    show_told(rt, told).map_err(unwritten)?;
    show_answers(rt, answers).map_err(unwritten)?;
    Ok(())
}

#![tactic(auto)]

// A card, its finders and a sheet used together.
mod finders;

ghost use Rattle.std.specs.Prelude.{◌≡◌, ◌<◌, ◌≤◌, ◌⊎◌, length, Err, MatchResult};
ghost use Rattle.code.specs.declared.refusal.Refusal.TheVariants.{OutputShort};
ghost use Rattle.card_file.specs.FileRows.{RowsAsAdded};
ghost use Rattle.card_file.specs.Files.{read_card_lem};
ghost use Rattle.strip.specs.Strips.{BuiltRun, CardRun, FileRun, Short};

use crate::finders::CardFinders;
use card::states::FinishedCard;
use card_file::read::read_card;
use card_list::requests::{Answer as CardAnswer, Request as CardRequest, build_card};
use code::length::WordLength;
use code::refusal::Refusal;
use reading::Reading;
use sheet::run::{Answer, Request};

// Which of a card's finders searches: the plain finder or the group finder, each under the card's coset layers.
#[derive(Clone, Copy)]
pub enum Method {
    Plain,
    Group,
}

// The memory for cells, work and answers is lent to each call by itself: in a struct, each would be a loan with a fact of its own.
// Each public call hands on to a private one of the same contract: it then needs no proof file, and a must-fail edit in it is refused by a fact.

// Lays out a sheet over the cells, makes the requests of it in order, each search by one of the card's finders, and writes an answer to each;
// answers the pass count. Where the memory for the answers is too short, nothing is done.
pub fn run_card<R: Reading>(
    card: &FinishedCard,
    cells: &mut [R],
    requests: &[Request<Method>],
    work: &mut [R],
    answers: &mut [Answer<R>],
) -> Result<u32, Refusal>
    ensures law { MatchResult result
        (λ count. CardRun R.Reading card.now requests.now count cells.old cells.new work.old work.new answers.old answers.new)
        (Short (length requests.now) (length answers.old)) }
    ensures refused { MatchResult result (λ _. length requests.now ≤ length answers.old) (λ _. (cells.new ≡ cells.old) × (work.new ≡ work.old) × (answers.new ≡ answers.old)) }
{
    run_with(card, cells, requests, work, answers)
}

// The requests have one lifetime, which the look-up of their finders names.
fn run_with<'q, R: Reading>(
    card: &FinishedCard,
    cells: &mut [R],
    requests: &'q [Request<'q, Method>],
    work: &mut [R],
    answers: &mut [Answer<R>],
) -> Result<u32, Refusal>
    ensures law { MatchResult result
        (λ count. CardRun R.Reading card.now requests.now count cells.old cells.new work.old work.new answers.old answers.new)
        (Short (length requests.now) (length answers.old)) }
    ensures refused { MatchResult result (λ _. length requests.now ≤ length answers.old) (λ _. (cells.new ≡ cells.old) × (work.new ≡ work.old) × (answers.new ≡ answers.old)) }
{
    if answers.len() < requests.len() {
        return Err(Refusal::OutputShort);
    }
    let finders = CardFinders::new(card);
    finders.run(cells, requests, work, answers)
}

// Builds a card from a list of requests, writing an answer to each, and then does as `run_card` with that card.
// The card is answered by the rows taken before, the sheet by its book, and each search finds by the rows that the card took.
pub fn run_built<R: Reading>(
    len: WordLength,
    rows: &[CardRequest],
    told: &mut [CardAnswer],
    cells: &mut [R],
    requests: &[Request<Method>],
    work: &mut [R],
    answers: &mut [Answer<R>],
) -> Result<u32, Refusal>
    ensures law { MatchResult result
        (λ count. BuiltRun R.Reading len rows.now told.old told.new requests.now count cells.old cells.new work.old work.new answers.old answers.new)
        (λ e. Short (length requests.now) (length answers.old) e ⊎ Short (length rows.now) (length told.old) e) }
    ensures refused { MatchResult result
        (λ _. (length requests.now ≤ length answers.old) × (length rows.now ≤ length told.old))
        (λ _. (told.new ≡ told.old) × (cells.new ≡ cells.old) × (work.new ≡ work.old) × (answers.new ≡ answers.old)) }
{
    build_and_run(len, rows, told, cells, requests, work, answers)
}

fn build_and_run<R: Reading>(
    len: WordLength,
    rows: &[CardRequest],
    told: &mut [CardAnswer],
    cells: &mut [R],
    requests: &[Request<Method>],
    work: &mut [R],
    answers: &mut [Answer<R>],
) -> Result<u32, Refusal>
    ensures law { MatchResult result
        (λ count. BuiltRun R.Reading len rows.now told.old told.new requests.now count cells.old cells.new work.old work.new answers.old answers.new)
        (λ e. Short (length requests.now) (length answers.old) e ⊎ Short (length rows.now) (length told.old) e) }
    ensures refused { MatchResult result
        (λ _. (length requests.now ≤ length answers.old) × (length rows.now ≤ length told.old))
        (λ _. (told.new ≡ told.old) × (cells.new ≡ cells.old) × (work.new ≡ work.old) × (answers.new ≡ answers.old)) }
{
    if answers.len() < requests.len() {
        return Err(Refusal::OutputShort);
    }
    let card = build_card(len, rows, told)?;
    run_with(&card, cells, requests, work, answers)
}

// Reads a card from a file and then does as `run_card` with that card. A refused file gives its refusal, and nothing is done.
pub fn run_file<R: Reading>(
    file: &[u8],
    cells: &mut [R],
    requests: &[Request<Method>],
    work: &mut [R],
    answers: &mut [Answer<R>],
) -> Result<u32, Refusal>
    ensures law { MatchResult result
        (λ count. FileRun R.Reading file.now requests.now count cells.old cells.new work.old work.new answers.old answers.new)
        (λ e. Short (length requests.now) (length answers.old) e ⊎ ((length requests.now ≤ length answers.old) × (read_card_lem file.now ≡ Err e))) }
    ensures rows { RowsAsAdded file.now }
    ensures refused { MatchResult result (λ _. length requests.now ≤ length answers.old) (λ _. (cells.new ≡ cells.old) × (work.new ≡ work.old) × (answers.new ≡ answers.old)) }
{
    read_and_run(file, cells, requests, work, answers)
}

fn read_and_run<R: Reading>(
    file: &[u8],
    cells: &mut [R],
    requests: &[Request<Method>],
    work: &mut [R],
    answers: &mut [Answer<R>],
) -> Result<u32, Refusal>
    ensures law { MatchResult result
        (λ count. FileRun R.Reading file.now requests.now count cells.old cells.new work.old work.new answers.old answers.new)
        (λ e. Short (length requests.now) (length answers.old) e ⊎ ((length requests.now ≤ length answers.old) × (read_card_lem file.now ≡ Err e))) }
    ensures rows { RowsAsAdded file.now }
    ensures refused { MatchResult result (λ _. length requests.now ≤ length answers.old) (λ _. (cells.new ≡ cells.old) × (work.new ≡ work.old) × (answers.new ≡ answers.old)) }
{
    let mut card = FinishedCard::new();
    let read = read_card(file, &mut card);
    if answers.len() < requests.len() {
        return Err(Refusal::OutputShort);
    }
    read?;
    run_with(&card, cells, requests, work, answers)
}

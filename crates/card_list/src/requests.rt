// A list of requests to a card just started, and the answers to it.
ghost use Rattle.std.specs.Prelude.{◌≡◌, ◌<◌, ◌≤◌, length, drop, Some, IfOk, MatchResult};
ghost use Rattle.code.specs.declared.refusal.Refusal.TheVariants.{OutputShort};
ghost use Rattle.card.specs.declared.open.AnyCard.TheVariants.{Open};
ghost use Rattle.card.specs.Cards.{Lawful};
ghost use Rattle.card.specs.OpenCards.{card_in, open_in, open_of, shown};
ghost use Rattle.card_list.specs.declared.requests.Request.TheVariants.{AddRow};
ghost use Rattle.card_list.specs.Requests.{afterwards, answered, card_after, DueIn, OwnList, put_into, row_taken, view_of};

use card::open::{AnyCard, OpenCard};
use card::states::FinishedCard;
use code::length::WordLength;
use code::refusal::Refusal;

// What is asked of a card: to move on to the next state, or to take a row into the open section.
#[derive(Clone, Copy, PartialEq, Eq, Debug)]
pub enum Request {
    MoveOn,
    AddRow { row: u64 },
}

// What a card answers. A finished card takes neither rows nor moves: it answers `Closed`.
// A `Result` would be no plainer: two of the answers would be its success, and `Closed` an error that is no refusal.
#[derive(Clone, Copy, PartialEq, Eq, Debug)]
pub enum Answer {
    Taken,
    Moved,
    Refused { refusal: Refusal },
    Closed,
}

// The answer that tells what became of a row.
impl From<Result<(), Refusal>> for Answer {
    ghost from_gives = { λ told answer. answer ≡ answered told };

    fn from(told: Result<(), Refusal>) -> Answer {
        match told {
            Ok(()) => Answer::Taken,
            Err(refusal) => Answer::Refused { refusal },
        }
    }
}

// Starts a card, hands it the requests in their order, and writes an answer to each, into lent memory since the library
// uses no heap. Answers how many were written;
// where the memory for them is too short, nothing is done. Every answer is as due from the rows taken before it.
pub fn run_requests(
    len: WordLength,
    requests: &[Request],
    answers: &mut [Answer],
) -> Result<usize, Refusal>
    ensures law { MatchResult result (λ _. OwnList len requests.now answers.new) (λ _. answers.new ≡ answers.old) }
    ensures count { MatchResult result (λ n. (n ≡ length requests.now) × (n ≤ length answers.old)) (λ e. (e ≡ OutputShort) × (length answers.old < length requests.now)) }
    ensures beyond { drop (length requests.now) answers.new ≡ drop (length requests.now) answers.old }
{
    build_card(len, requests, answers)?;
    Ok(requests.len())
}

// The same, and gives the card, moved on until it is finished: it has each row that was taken, in the section that was open.
pub fn build_card(
    len: WordLength,
    requests: &[Request],
    answers: &mut [Answer],
) -> Result<FinishedCard, Refusal>
    ensures law { MatchResult result (λ _. OwnList len requests.now answers.new) (λ _. answers.new ≡ answers.old) }
    ensures card { IfOk result (λ k. k ≡ card_after len requests.now answers.new) }
    ensures lawful { IfOk result (λ k. Lawful k) }
    ensures room { MatchResult result (λ _. length requests.now ≤ length answers.old) (λ e. (e ≡ OutputShort) × (length answers.old < length requests.now)) }
    ensures beyond { drop (length requests.now) answers.new ≡ drop (length requests.now) answers.old }
{
    if answers.len() < requests.len() {
        return Err(Refusal::OutputShort);
    }
    let card = answer_all(len, requests, answers);
    Ok(card.finish())
}

// Hands the requests to a card just started, one after the other.
fn answer_all(len: WordLength, requests: &[Request], answers: &mut [Answer]) -> AnyCard
    requires { length requests.now ≤ length answers.old }
    ensures law { OwnList len requests.now answers.new }
    ensures card { card_in result ≡ card_after len requests.now answers.new }
    ensures beyond { drop (length requests.now) answers.new ≡ drop (length requests.now) answers.old }
{
    let mut card = AnyCard::Open(OpenCard::new(len));
    // After `answers.iter_mut().zip(requests)` a proof knows no answer.
    for (i, request) in requests.iter().enumerate() {
        let (next, answer) = answer_one(card, *request);
        card = next;
        answers[i] = answer;
    }
    card
}

// The card after one request, and the answer.
fn answer_one(card: AnyCard, request: Request) -> (AnyCard, Answer)
    ensures due { DueIn (view_of card) request result.1 }
    ensures view { view_of result.0 ≡ afterwards (view_of card) request result.1 }
    ensures card { card_in result.0 ≡ put_into (open_in card) (card_in card) (row_taken request result.1) }
{
    match card {
        AnyCard::Open(open) => answer_open(open, request),
        AnyCard::Finished(finished) => (AnyCard::Finished(finished), Answer::Closed),
    }
}

// The same of a card with an open section.
fn answer_open(card: OpenCard, request: Request) -> (AnyCard, Answer)
    ensures due { DueIn (view_of (Open card)) request result.1 }
    ensures view { view_of result.0 ≡ afterwards (view_of (Open card)) request result.1 }
    ensures card { card_in result.0 ≡ put_into (Some (open_of card)) (shown card) (row_taken request result.1) }
{
    match request {
        Request::MoveOn => (card.move_on(), Answer::Moved),
        Request::AddRow { row } => answer_row(card, row),
    }
}

// The same of a row that is handed to it.
fn answer_row(mut card: OpenCard, row: u64) -> (AnyCard, Answer)
    ensures due { DueIn (view_of (Open card)) (AddRow row) result.1 }
    ensures view { view_of result.0 ≡ afterwards (view_of (Open card)) (AddRow row) result.1 }
    ensures card { card_in result.0 ≡ put_into (Some (open_of card)) (shown card) (row_taken (AddRow row) result.1) }
{
    let answer = Answer::from(card.add_row(row));
    (AnyCard::Open(card), answer)
}

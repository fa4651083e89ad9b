// Files of code E cut and damaged, and a list of requests.
use anyhow::ensure;
use card::states::{FinishedCard, GroupCard};
use card_file::read::read_card;
use card_file::write::write_card;
use card_list::requests::{Answer, Request, run_requests};
use code::length::WordLength;
use code::refusal::{Numbered, Refusal, Section};

// The bytes of code E: four more than its four rows take.
const E_BYTES: usize = 36;

// Code E. Other programs build the same card and show or refuse other things on the way; a library for these calls would be no plainer.
fn code_e() -> Result<FinishedCard, Refusal> {
    let mut group = GroupCard::new(WordLength::new(5)?);
    group.add_row(3)?;
    group.add_row(6)?;
    let mut transform = group.close_group();
    transform.add_row(12)?;
    let mut coset = transform.close_transform();
    coset.add_row(17)?;
    Ok(coset.finish())
}

fn bytes_of_e() -> Result<[u8; E_BYTES], Refusal> {
    let mut bytes = [0; E_BYTES];
    write_card(&code_e()?, &mut bytes)?;
    Ok(bytes)
}

// The file is refused so, and the card that it was to fill is as it was.
fn expect_refused(bytes: &[u8], due: Refusal) -> anyhow::Result<()> {
    let mut card = code_e()?;
    let answer = read_card(bytes, &mut card);
    ensure!(answer == Err(due), "a file was not {}", Numbered(due));
    ensure!(
        card == code_e()?,
        "a file that was refused changed the card"
    );
    Ok(())
}

// Every file that is shorter than code E's ends early.
pub(crate) fn truncations() -> anyhow::Result<usize> {
    let bytes = bytes_of_e()?;
    for cut in 0..E_BYTES {
        expect_refused(&bytes[0..cut], Refusal::BytesEndEarly)?;
    }
    Ok(E_BYTES)
}

// The file of code E with one byte changed.
fn changed(at: usize, byte: u8) -> Result<[u8; E_BYTES], Refusal> {
    let mut bytes = bytes_of_e()?;
    if let Some(place) = bytes.get_mut(at) {
        *place = byte;
    }
    Ok(bytes)
}

fn beyond(section: Section, index: usize) -> Refusal {
    Refusal::DigitBeyondLength { section, index }
}

fn dependent(section: Section, index: usize) -> Refusal {
    Refusal::DependentRow { section, index }
}

fn full(section: Section) -> Refusal {
    Refusal::SectionFull { section }
}

// A byte of the file, what it is changed to, and the refusal that is due: the length at byte 0, the counts at bytes 1, 18
// and 27, and the rows behind them.
fn damages() -> [(usize, u8, Refusal); 19] {
    [
        (0, 0, Refusal::LengthOutOfRange),
        (0, 65, Refusal::LengthOutOfRange),
        (0, 255, Refusal::LengthOutOfRange),
        (0, 1, beyond(Section::Group, 0)),
        (0, 4, beyond(Section::Coset, 0)),
        (1, 9, full(Section::Group)),
        (18, 9, full(Section::Transform)),
        (27, 200, full(Section::Coset)),
        (1, 8, beyond(Section::Group, 2)),
        (27, 2, Refusal::BytesEndEarly),
        (27, 0, Refusal::BytesLeftOver),
        (2, 0, dependent(Section::Group, 0)),
        (10, 3, dependent(Section::Group, 1)),
        (10, 32, beyond(Section::Group, 1)),
        (17, 128, beyond(Section::Group, 1)),
        (19, 5, dependent(Section::Transform, 0)),
        (26, 1, beyond(Section::Transform, 0)),
        (28, 9, dependent(Section::Coset, 0)),
        (29, 1, beyond(Section::Coset, 0)),
    ]
}

// Tries each damaged file, and tells how many were tried.
pub(crate) fn damaged() -> anyhow::Result<usize> {
    let damages = damages();
    for (at, byte, due) in damages {
        expect_refused(&changed(at, byte)?, due)?;
    }
    broken_group()?;
    byte_too_many()?;
    longest_length()?;
    Ok(damages.len() + 2)
}

// Group rows 3, 6 and 9: the third breaks concurrence.
fn broken_group() -> anyhow::Result<()> {
    let mut bytes = [0; E_BYTES];
    bytes[0] = 5;
    bytes[1] = 3;
    bytes[2] = 3;
    bytes[10] = 6;
    bytes[18] = 9;
    expect_refused(
        &bytes,
        Refusal::ConcurrenceBroken {
            section: Section::Group,
            index: 2,
        },
    )
}

fn byte_too_many() -> anyhow::Result<()> {
    let mut bytes = [0; 37];
    write_card(&code_e()?, &mut bytes)?;
    expect_refused(&bytes, Refusal::BytesLeftOver)
}

// Code E's rows are taken with a length of 64 too.
fn longest_length() -> anyhow::Result<()> {
    let mut card = FinishedCard::new();
    read_card(&changed(0, 64)?, &mut card)?;
    ensure!(
        card.word_length().places() == 64 && card.rows() == code_e()?.rows(),
        "code E's rows of length 64 were read as others"
    );
    Ok(())
}

fn add(row: u64) -> Request {
    Request::AddRow { row }
}

fn refused(refusal: Refusal) -> Answer {
    Answer::Refused { refusal }
}

// How many requests are made.
const REQUESTS: usize = 13;

// Code E as a list of requests, with ones between that are refused, and what each is answered.
fn requests() -> [(Request, Answer); REQUESTS] {
    let broken = Refusal::ConcurrenceBroken {
        section: Section::Group,
        index: 2,
    };
    [
        (add(3), Answer::Taken),
        (add(6), Answer::Taken),
        (add(5), refused(dependent(Section::Group, 2))),
        (add(9), refused(broken)),
        (add(32), refused(beyond(Section::Group, 2))),
        (Request::MoveOn, Answer::Moved),
        (add(12), Answer::Taken),
        (add(0), refused(dependent(Section::Transform, 1))),
        (Request::MoveOn, Answer::Moved),
        (add(17), Answer::Taken),
        (Request::MoveOn, Answer::Moved),
        (add(2), Answer::Closed),
        (Request::MoveOn, Answer::Closed),
    ]
}

// Runs the list, and once more with too little memory for the answers.
pub(crate) fn own_list() -> anyhow::Result<usize> {
    let list = requests().map(|(request, _)| request);
    let due = requests().map(|(_, answer)| answer);
    let mut answers = [Answer::Closed; 14];
    let count = run_requests(WordLength::new(5)?, &list, &mut answers)?;
    ensure!(
        count == REQUESTS && &answers[..REQUESTS] == due.as_slice(),
        "the list of requests was not answered as due"
    );
    let mut few = [Answer::Closed; 12];
    let short = run_requests(WordLength::new(5)?, &list, &mut few);
    ensure!(
        short == Err(Refusal::OutputShort),
        "memory too short for the answers was not refused"
    );
    Ok(REQUESTS)
}

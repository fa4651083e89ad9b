// Dependence and concurrence beside plain searches, on pseudo-random rows.
use anyhow::{bail, ensure};
use card::open::{AnyCard, OpenCard};
use card::states::GroupCard;
use code::length::WordLength;
use code::refusal::Refusal;
use code::rows::Rows;
use code::words::word_of;

// The most rows that the plain searches go through.
const MOST: usize = 12;

// How many rows were tried, and how many were refused by the check that is looked at.
#[derive(Clone, Copy)]
pub struct Seen {
    pub rows: u32,
    pub refused: u32,
}

impl Seen {
    fn note(&mut self, refused: bool) {
        self.rows = self.rows.wrapping_add(1);
        self.refused = self.refused.wrapping_add(u32::from(refused));
    }
}

// The next pseudo-random number. The numbers of this sequence and of that in `finder_cases` are in the stored outputs, and programs share no code.
fn next(state: u64) -> u64 {
    let a = state ^ (state << 13);
    let b = a ^ (a >> 7);
    b ^ (b << 17)
}

// The highest places of a number.
fn high(number: u64, places: usize) -> u64 {
    number >> (64usize.wrapping_sub(places) % 64)
}

// Whether some choice of the rows has the sum `row`, by trying all choices.
fn is_some_sum(rows: &[u64], row: u64) -> bool {
    (0..1u64 << (rows.len() % 32)).any(|message| word_of(rows, message) == row)
}

// Whether a place has digit 1 in two rows or more, `row` among them, and not in all, by counting.
fn breaks(rows: &[u64], row: u64) -> bool {
    (0u32..64).any(|place| {
        let digit = 1u64 << (place % 64);
        let others = rows.iter().filter(|other| **other & digit != 0).count();
        let ones = others.saturating_add(usize::from(row & digit != 0));
        ones >= 2 && ones != rows.len().saturating_add(1)
    })
}

// Compares the answer to a row with the search, where `broken` says whether the row breaks the concurrence of the group.
fn judge(
    taken: &mut Rows<MOST>,
    row: u64,
    broken: bool,
    answer: Result<(), Refusal>,
) -> anyhow::Result<()> {
    let sum = is_some_sum(taken.as_slice(), row);
    match answer {
        Ok(()) => {
            ensure!(!sum && !broken, "row {row} was taken");
            taken.push(row);
        }
        Err(Refusal::DependentRow { .. }) => ensure!(sum, "row {row} is no sum"),
        Err(Refusal::ConcurrenceBroken { .. }) => {
            ensure!(!sum && broken, "row {row} breaks no concurrence")
        }
        Err(refusal) => bail!(refusal),
    }
    Ok(())
}

// Tries a row at most `tries` times, as long as the card has fewer than `most` rows. `try_row` makes a row, hands it to
// the card, and tells whether it was refused by the check that is looked at.
fn try_rows<F: FnMut(&mut Rows<MOST>) -> anyhow::Result<bool>>(
    taken: &mut Rows<MOST>,
    tries: u32,
    most: usize,
    seen: &mut Seen,
    mut try_row: F,
) -> anyhow::Result<()>
    requires { F.IsAlwaysCallable try_row }
{
    for _ in 0..tries {
        if taken.as_slice().len() < most {
            seen.note(try_row(taken)?);
        }
    }
    Ok(())
}

// Rows of one length, added to the transform section until it is full and then to the coset section.
fn dependence_at(places: usize, seed: u64, seen: &mut Seen) -> anyhow::Result<()> {
    let mut taken = Rows::new();
    let mut state = seed;
    let group = GroupCard::new(WordLength::new(places)?);
    let mut card = OpenCard::InTransform(group.close_group());
    for (tries, most) in [(12, 8), (8, MOST)] {
        try_rows(&mut taken, tries, most, seen, |taken| {
            state = next(state);
            let row = high(state, places);
            let answer = card.add_row(row);
            judge(taken, row, false, answer)?;
            Ok(matches!(answer, Err(Refusal::DependentRow { .. })))
        })?;
        let AnyCard::Open(next) = card.move_on() else {
            break;
        };
        card = next;
    }
    Ok(())
}

// Group rows of few digits 1.
fn concurrence_at(places: usize, seed: u64, seen: &mut Seen) -> anyhow::Result<()> {
    let mut taken = Rows::new();
    let mut state = seed;
    let mut group = GroupCard::new(WordLength::new(places)?);
    try_rows(&mut taken, 40, 8, seen, |taken| {
        let first = next(state);
        state = next(first);
        let row = high(first & state, places);
        let broken = breaks(taken.as_slice(), row);
        let answer = group.add_row(row);
        judge(taken, row, broken, answer)?;
        Ok(matches!(answer, Err(Refusal::ConcurrenceBroken { .. })))
    })
}

// Forty trials, of ten lengths from the shortest on.
fn trials<F: FnMut(usize, u64, &mut Seen) -> anyhow::Result<()>>(
    shortest: usize,
    mut trial: F,
) -> anyhow::Result<Seen>
    requires { F.IsAlwaysCallable trial }
{
    let mut seen = Seen {
        rows: 0,
        refused: 0,
    };
    for i in 0u64..40 {
        let places = shortest.saturating_add(i as usize % 10);
        let seed = next(i.wrapping_mul(0x9e37_79b9_7f4a_7c15) | 1);
        trial(places, seed, &mut seen)?;
    }
    Ok(seen)
}

// Rows of 5 to 14 places beside the search over all choices of the rows on the card.
pub(crate) fn dependence() -> anyhow::Result<Seen> {
    trials(5, dependence_at)
}

// Rows of 3 to 12 places beside the count at every place.
pub(crate) fn concurrence() -> anyhow::Result<Seen> {
    trials(3, concurrence_at)
}

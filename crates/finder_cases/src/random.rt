// Pseudo-random numbers, cards and words.
ghost use Rattle.std.specs.Prelude.{◌<◌};

use card::states::{FinishedCard, GroupCard};
use code::length::WordLength;
use code::refusal::Refusal;

// The most rows of a card here, so that a plain search over all messages stays short.
pub(crate) const MOST_ROWS: usize = 12;

// The most rows of a section.
const SECTION_ROWS: usize = 8;

// A sequence of pseudo-random numbers, not that of `card_cases`: the numbers of both are in the stored outputs.
#[derive(Clone, Copy)]
pub struct Random {
    state: u64,
}

impl Random {
    pub(crate) fn new(seed: u64) -> Random {
        Random {
            state: seed.wrapping_mul(0x9e37_79b9_7f4a_7c15) | 1,
        }
    }

    pub(crate) fn next(&mut self) -> u64 {
        let a = self.state ^ (self.state << 13);
        let b = a ^ (a >> 7);
        self.state = b ^ (b << 17);
        self.state >> 11
    }

    // A number below the limit.
    pub(crate) fn below(&mut self, limit: usize) -> usize
        requires { 0 < limit }
        ensures { result < limit }
    {
        (self.next() % 65536) as usize % limit
    }

    // A row of so many places.
    pub(crate) fn row(&mut self, places: usize) -> u64 {
        let high = self.next() << 32;
        (self.next() ^ high) >> (64usize.wrapping_sub(places) % 64)
    }

    // A whole number from -2 to 2.
    pub(crate) fn small(&mut self) -> i32 {
        self.below(5) as i32 - 2
    }
}

// Sets a digit in the row of that number, or in all rows for the number beyond the last.
fn set_digit(rows: &mut [u64], class: usize, digit: u64) {
    let all = class == rows.len();
    for (j, row) in rows.iter_mut().enumerate() {
        if all || j == class {
            *row |= digit;
        }
    }
}

// Group rows, which concur: each place has digit 1 in none of them, in one, or in all.
fn draw_group(random: &mut Random, places: usize, rows: &mut [u64]) {
    for place in 0..places {
        let class = random.below(rows.len().saturating_add(2));
        set_digit(rows, class, 1u64 << (place % 64));
    }
}

// Offers rows to a section while there is room, and answers how much room is left; rows that are refused are left out.
// A loop, since a filter whose test adds rows would be no plainer.
// Like the case program of cards and `demo` it passes over refused rows; a library for it would be no plainer.
fn offer<A: FnMut(u64) -> Result<(), Refusal>>(rows: &[u64], room: usize, mut add_row: A) -> usize
    requires { A.IsAlwaysCallable add_row }
{
    let mut left = room;
    for row in rows {
        if left > 0 && add_row(*row).is_ok() {
            left -= 1;
        }
    }
    left
}

// A card of a random length with rows in all sections; rows that are refused are left out.
pub(crate) fn random_card(random: &mut Random) -> Result<FinishedCard, Refusal> {
    let places = random.below(64) + 1;
    let mut rows = [0; SECTION_ROWS];
    let mut group = GroupCard::new(WordLength::new(places)?);
    let drawn = &mut rows[..random.below(SECTION_ROWS + 1)];
    draw_group(random, places, drawn);
    let room = offer(drawn, MOST_ROWS, |row| group.add_row(row));
    let mut transform = group.close_group();
    let drawn = &mut rows[..random.below(SECTION_ROWS + 1)];
    drawn.fill_with(|| random.row(places));
    let room = offer(drawn, room, |row| transform.add_row(row));
    let mut coset = transform.close_transform();
    let drawn = &mut rows[..random.below(SECTION_ROWS + 1)];
    drawn.fill_with(|| random.row(places));
    offer(drawn, room, |row| coset.add_row(row));
    Ok(coset.finish())
}

// Codes of the literature, from generator polynomials and monomials.
use card::states::{FinishedCard, GroupCard};
use code::length::WordLength;
use code::refusal::Refusal;
use code::rows::Rows;
use code::words::word_of;

// The most rows of a code here.
const MOST_ROWS: usize = 16;

// How the rows of a code are made.
#[derive(Clone, Copy)]
pub(crate) enum Construction {
    // That many shifts of the polynomial with those exponents.
    Cyclic(usize, &'static [u32]),
    // The same, with a place more that makes the number of digits 1 even.
    Extended(usize, &'static [u32]),
    // The monomials of at most so many of five variables.
    ReedMuller(u32),
}

// A code of n places.
#[derive(Clone, Copy)]
pub(crate) struct Code {
    pub(crate) name: &'static str,
    pub(crate) n: usize,
    construction: Construction,
}

// The exponents of the generator polynomial of the Golay code.
const GOLAY: &[u32] = &[0, 1, 5, 6, 7, 9, 11];

pub(crate) const CODES: [Code; 8] = [
    Code {
        name: "Golay",
        n: 23,
        construction: Construction::Cyclic(12, GOLAY),
    },
    Code {
        name: "extended Golay",
        n: 24,
        construction: Construction::Extended(12, GOLAY),
    },
    Code {
        name: "Hamming",
        n: 15,
        construction: Construction::Cyclic(11, &[0, 1, 4]),
    },
    Code {
        name: "BCH",
        n: 15,
        construction: Construction::Cyclic(7, &[0, 4, 6, 7, 8]),
    },
    Code {
        name: "BCH",
        n: 21,
        construction: Construction::Cyclic(12, &[0, 1, 4, 5, 7, 8, 9]),
    },
    Code {
        name: "BCH",
        n: 31,
        construction: Construction::Cyclic(11, &[0, 2, 4, 6, 7, 9, 10, 13, 17, 18, 20]),
    },
    Code {
        name: "Reed-Muller of order 1",
        n: 32,
        construction: Construction::ReedMuller(1),
    },
    Code {
        name: "Reed-Muller of order 2",
        n: 32,
        construction: Construction::ReedMuller(2),
    },
];

// The multiples of a polynomial by the first k powers.
fn shifts(k: usize, exponents: &[u32]) -> Rows<MOST_ROWS> {
    let generator = exponents
        .iter()
        .fold(0u64, |word, exponent| word | 1 << (*exponent % 64));
    let mut rows = Rows::new();
    for word in (0..k).map(|i| generator << (i % 64)) {
        rows.push(word);
    }
    rows
}

// The rows, with a place more that makes the number of digits 1 even.
fn extended(rows: &[u64]) -> Rows<MOST_ROWS> {
    let mut longer = Rows::new();
    for row in rows {
        longer.push(*row | u64::from(row.count_ones() % 2) << 23);
    }
    longer
}

// The digit of a monomial at a point: 1 where all its variables are 1.
fn monomial(variables: u64) -> u64 {
    (0u64..32)
        .filter(|point| point & variables == variables)
        .fold(0, |word, point| word | 1 << (point % 64))
}

// The monomials of at most so many of five variables.
fn monomials(order: u32) -> Rows<MOST_ROWS> {
    let mut rows = Rows::new();
    let few = (0u64..32).filter(|variables| variables.count_ones() <= order);
    for word in few.map(monomial) {
        rows.push(word);
    }
    rows
}

impl Code {
    // The rows of the code: `Rows`, so that the program needs no heap.
    pub(crate) fn rows(&self) -> Rows<MOST_ROWS> {
        match self.construction {
            Construction::Cyclic(k, exponents) => shifts(k, exponents),
            Construction::Extended(k, exponents) => extended(shifts(k, exponents).as_slice()),
            Construction::ReedMuller(order) => monomials(order),
        }
    }
}

// The first of the lightest code words other than 0 with digits 1 only at free places.
fn lightest(rows: &[u64], free: u64) -> Option<u64> {
    (1..1u64 << (rows.len() % 32))
        .map(|message| word_of(rows, message))
        .filter(|word| *word != 0 && word & free == *word)
        .min_by_key(|word| word.count_ones())
}

// Adds the rows that do not depend on those of the card, as long as the section has room.
// A match, since `?` would hand on the two refusals that are passed over. Other programs pass over other refusals; a library for it would be no plainer.
fn add_independent<F: FnMut(u64) -> Result<(), Refusal>>(
    rows: &[u64],
    mut add_row: F,
) -> Result<(), Refusal>
    requires { F.IsAlwaysCallable add_row }
{
    for row in rows {
        match add_row(*row) {
            Ok(()) | Err(Refusal::DependentRow { .. } | Refusal::SectionFull { .. }) => {}
            Err(refusal) => return Err(refusal),
        }
    }
    Ok(())
}

// The card of a code of n places: words without a common place as the group, then rows of the code.
pub(crate) fn build(n: usize, rows: &[u64]) -> Result<FinishedCard, Refusal> {
    let mut group = GroupCard::new(WordLength::new(n)?);
    let mut free = u64::MAX >> ((64 - n.min(64)) % 64);
    for _ in 0..8 {
        let Some(word) = lightest(rows, free) else {
            break;
        };
        group.add_row(word)?;
        free &= !word;
    }
    let mut transform = group.close_group();
    add_independent(rows, |row| transform.add_row(row))?;
    let mut coset = transform.close_transform();
    add_independent(rows, |row| coset.add_row(row))?;
    Ok(coset.finish())
}

// Whether a row is the sum of a choice of others, by elimination.
ghost use Rattle.std.specs.Prelude.{◌≡◌, ◌≤◌, min, length, bit_xor};
ghost use Rattle.card.specs.Rows.{dependent};
ghost use Rattle.card.specs.Cards.{card_rows};
ghost use Rattle.card.specs.Echelon.{Echelon, Reduced};

use crate::table::{CARD_ROWS, put};
use code::rows::Rows;

// The row with `lead` added where that makes it smaller: without the first digit of `lead`.
fn without(rest: u64, lead: u64) -> u64
    ensures { result ≡ min rest (bit_xor rest lead) }
{
    rest.min(rest ^ lead)
}

// The row with rows of an echelon added wherever that makes it smaller.
fn reduce(basis: &[u64], row: u64) -> u64
    requires { Echelon basis.now }
    ensures { Reduced basis.now row result }
{
    let mut rest = row;
    for lead in basis {
        rest = without(rest, *lead);
    }
    rest
}

// Whether `row` is the sum of a choice of `rows`: the rows are brought to an echelon, and `row` reduced by it.
pub(crate) fn is_dependent(rows: &[u64], row: u64) -> bool
    requires { length rows.now ≤ card_rows }
    ensures { result ≡ dependent rows.now row }
{
    let mut basis = Rows::<CARD_ROWS>::new();
    for other in rows {
        let lead = reduce(basis.as_slice(), *other);
        put(&mut basis, lead);
    }
    reduce(basis.as_slice(), row) == 0
}

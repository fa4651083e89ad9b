ghost use Rattle.std.specs.Prelude.{◌≡◌, ◌<◌, ◌∷◌, [], ◌++◌, length};
ghost use Rattle.card.specs.Cards.{card_rows};

use code::length::WordLength;
use code::rows::Rows;
use std::marker::Model;

mod build;
mod checks;
mod views;

// The largest number of rows that a section holds, and a card.
pub(crate) const SECTION_ROWS: usize = 8;

pub(crate) const CARD_ROWS: usize = 24;

// The word length and the rows of a card: group rows first, then transform rows, and the others are coset rows.
// One list with the sizes of its sections, and not three lists, so that all rows can be lent as one slice.
#[derive(PartialEq, Eq, Debug, Drop)]
pub(crate) struct Table {
    len: WordLength,
    rows: Rows<CARD_ROWS>,
    group: usize,
    transform: usize,
}

impl Model for Table {
    ghost use Rattle.card.specs.Cards.{Card};

    ghost Value = { Card };

    ghost use Rattle.card.specs.Tables.{card_of, table_of, table_of-card_of, IsTable};

    ghost view = { card_of };

    ghost invariant = { IsTable };

    ghost inverse = { table_of };

    ghost inverse_ok = { table_of-card_of };
}

// One row more in a list that has room for it.
pub(crate) fn put(rows: &mut Rows<CARD_ROWS>, row: u64)
    requires { length rows.old < card_rows }
    ensures { rows.new ≡ rows.old ++ row ∷ [] }
{
    rows.push(row);
}

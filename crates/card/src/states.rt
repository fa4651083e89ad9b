use crate::table::Table;
use std::marker::Model;

mod calls;

// The four states are four types by a rule of the project, each with its own model: they differ in the invariant.

// A card that takes group rows.
#[derive(PartialEq, Eq, Debug, Drop)]
pub struct GroupCard {
    table: Table,
}

impl Model for GroupCard {
    ghost use Rattle.code.specs.declared.refusal.Section.TheVariants.{Group};
    ghost use Rattle.card.specs.Cards.{Card, Lawful, NoneAfter};

    ghost Value = { Card };

    ghost view = { λ c. c.table };

    ghost invariant = { λ c. (Lawful c.table) × NoneAfter c.table Group };

    ghost inverse = { λ k. record { table = k } };
}

// A card whose group is closed and that takes transform rows.
#[derive(PartialEq, Eq, Debug, Drop)]
pub struct TransformCard {
    table: Table,
}

impl Model for TransformCard {
    ghost use Rattle.code.specs.declared.refusal.Section.TheVariants.{Transform};
    ghost use Rattle.card.specs.Cards.{Card, Lawful, NoneAfter};

    ghost Value = { Card };

    ghost view = { λ c. c.table };

    ghost invariant = { λ c. (Lawful c.table) × NoneAfter c.table Transform };

    ghost inverse = { λ k. record { table = k } };
}

// A card whose group and transform sections are closed and that takes coset rows.
#[derive(PartialEq, Eq, Debug, Drop)]
pub struct CosetCard {
    table: Table,
}

impl Model for CosetCard {
    ghost use Rattle.card.specs.Cards.{Card, Lawful};

    ghost Value = { Card };

    ghost view = { λ c. c.table };

    ghost invariant = { λ c. Lawful c.table };

    ghost inverse = { λ k. record { table = k } };
}

// A card that takes no more rows.
#[derive(PartialEq, Eq, Debug, Drop)]
pub struct FinishedCard {
    table: Table,
}

impl Model for FinishedCard {
    ghost use Rattle.card.specs.Cards.{Card, Lawful};

    ghost Value = { Card };

    ghost view = { λ c. c.table };

    ghost invariant = { λ c. Lawful c.table };

    ghost inverse = { λ k. record { table = k } };
}

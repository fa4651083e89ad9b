ghost use Rattle.std.specs.Prelude.{◌≡◌, ℕ};
ghost use Rattle.card.specs.Cards.{Card};
ghost use Rattle.finder.specs.OfCard.{card_meaning, plain_need_of};

use crate::Finder;
use crate::plain::PlainFinder;
use card::states::FinishedCard;

// A finder that is made of a card: it has the card's length and the rows of its group and transform sections, in their order.
pub trait OfCard: Finder {
    ghost need_of: { Card → ℕ };

    fn of_card(card: &FinishedCard) -> Self
        ensures { Self.meaning result ≡ card_meaning need_of card.now };
}

impl OfCard for PlainFinder {
    ghost need_of = { plain_need_of };

    fn of_card(card: &FinishedCard) -> PlainFinder {
        PlainFinder::new(card)
    }
}

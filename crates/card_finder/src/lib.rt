#![tactic(auto)]

ghost use Rattle.std.specs.Prelude.{◌≡◌, ◌≤◌, length};
ghost use Rattle.coset_layer.specs.Layers.{layer_meaning};
ghost use Rattle.coset_layer.specs.Pile.{layer_rows};
ghost use Rattle.card_finder.specs.Whole.{whole_meaning};

use card::states::FinishedCard;
use coset_layer::{CosetLayer, card_layers};
use finder::of_card::OfCard;

// The finder of all rows of a card: a finder of its group and transform rows below its coset layers.
pub fn card_finder<F: OfCard>(card: &FinishedCard) -> CosetLayer<CosetLayer<F>>
    ensures meaning { layer_meaning (layer_meaning F.Finder.meaning) result ≡ whole_meaning F.OfCard.need_of card.now }
    ensures few { (length result.own ≤ layer_rows) × (length result.below.own ≤ layer_rows) }
{
    card_layers(F::of_card(card), card)
}

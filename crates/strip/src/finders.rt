// The two finders of a card.
ghost use Rattle.std.specs.Prelude.{◌≡◌, ◌≤◌, length, MatchResult};
ghost use Rattle.card.specs.Cards.{Card};
ghost use Rattle.strip.specs.Strips.{CardRun, Short};
ghost use Rattle.strip.specs.Finders.{FindersOf, finder_of};

use crate::Method;
use card::states::FinishedCard;
use card_finder::card_finder;
use code::refusal::Refusal;
use coset_layer::CosetLayer;
use finder::Finder;
use finder::either::Either;
use finder::plain::PlainFinder;
use group_finder::GroupFinder;
use reading::Reading;
use sheet::run::{Answer, Request, run_over_by};

// A finder of a card: the plain finder or the group finder, under the card's coset layers.
pub(crate) type CardFinder = Either<
    CosetLayer<CosetLayer<PlainFinder>>,
    CosetLayer<CosetLayer<GroupFinder>>,
>;

// The finders of a card.
#[derive(Clone, Copy)]
pub(crate) struct CardFinders {
    plain: CardFinder,
    group: CardFinder,
}

impl CardFinders {
    pub(crate) fn new(card: &FinishedCard) -> CardFinders
        ensures { FindersOf ⟦<CardFinder as Finder>⟧.meaning card.now result }
    {
        CardFinders {
            plain: Either::First(card_finder::<PlainFinder>(card)),
            group: Either::Second(card_finder::<GroupFinder>(card)),
        }
    }

    // The finder of a method.
    pub(crate) fn by(&self, method: Method) -> &CardFinder
        ensures { result.now ≡ finder_of self.now method }
    {
        match method {
            Method::Plain => &self.plain,
            Method::Group => &self.group,
        }
    }

    // Lays out a sheet over the cells and makes the requests of it, each search by the finder of its method.
    pub(crate) fn run<'f, R: Reading>(
        &'f self,
        cells: &mut [R],
        requests: &'f [Request<'f, Method>],
        work: &mut [R],
        answers: &mut [Answer<R>],
    ) -> Result<u32, Refusal>
        ensures law { (k : Card) → FindersOf ⟦<CardFinder as Finder>⟧.meaning k self.now → MatchResult result
            (λ count. CardRun R.Reading k requests.now count cells.old cells.new work.old work.new answers.old answers.new)
            (Short (length requests.now) (length answers.old)) }
        ensures refused { MatchResult result (λ _. length requests.now ≤ length answers.old) (λ _. (cells.new ≡ cells.old) × (work.new ≡ work.old) × (answers.new ≡ answers.old)) }
    {
        run_over_by(cells, requests, |method| self.by(*method), work, answers)
    }
}

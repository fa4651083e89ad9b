#![tactic(auto)]

mod choices;
mod slots;

ghost use Rattle.std.specs.Prelude.{◌≡◌, ◌+◌, ◌-◌, ◌^◌, ◌≤◌, ◌++◌, length, take, MatchResult};
ghost use Rattle.card.specs.Cards.{Lawful, max_section_rows};
ghost use Rattle.card.specs.Rows.{Concur};
ghost use Rattle.code.specs.Limits.{Length};
ghost use Rattle.finder.specs.Search.{Answered, Refused};
ghost use Rattle.finder.specs.OfCard.{card_meaning, plain_need_of};
ghost use Rattle.group_finder.specs.Choices.{group_need, group_need_of};
ghost use Rattle.std.proofs.Common.{arith};
ghost use Rattle.group_finder.specs.Concurring.{group_lawful};

use crate::choices::Lists;
use crate::slots::{group_slots, transform_parts};
use card::states::FinishedCard;
use code::length::WordLength;
use code::refusal::{Refusal, Section};
use finder::Finder;
use finder::fold::fold;
use finder::found::Found;
use finder::of_card::OfCard;
use finder::plain::PlainFinder;
use reading::Reading;

// The group finder: the rows of the plain finder, of which the first `group` concur.
#[derive(Clone, Copy)]
pub struct GroupFinder {
    plain: PlainFinder,
    group: usize,
    ghost few: { (group ≤ max_section_rows) × (group ≤ length plain.rows) × (length plain.rows ≤ group + max_section_rows) },
    ghost concur: { Concur (take group plain.rows) },
}

// The number of choices of so many rows; `message_count` of `finder`, private there, is no shorter for being shared.
fn choice_count(rows: usize) -> usize
    requires { rows ≤ max_section_rows }
    ensures { result ≡ 2 ^ rows }
{
    1usize << rows
}

// How many readings a search of so many group rows and others needs.
fn need_of(group: usize, others: usize) -> usize
    requires { (group ≤ max_section_rows) × (others ≤ max_section_rows) }
    ensures { result ≡ group_need group others }
{
    (group + 2) * choice_count(others)
}

// Folds the word into the lists of the slots, transforms each, and takes the best of all choices.
// The need is handed in by `search`, where a wrong one is refused by a fact; computed here it would be no plainer. The facts of the two lists
// stand at each function that takes them: they are slices of one list, and a struct of the two would hold the same facts as ghost fields.
fn search_group<R: Reading>(
    group: &[u64],
    others: &[u64],
    places: WordLength,
    need: usize,
    word: &[R],
    work: &mut [R],
) -> Result<Found<R>, Refusal>
    requires few { (length group.now ≤ max_section_rows) × (length others.now ≤ max_section_rows) }
    requires concur { Concur group.now }
    requires sized { Length places }
    requires room { need ≡ group_need (length group.now) (length others.now) }
    ensures { MatchResult result
        (Answered R.Reading (record { span = places; rows = group.now ++ others.now; need = need }) word.now work.old work.new)
        (Refused R.Reading.size places need word.now work.old work.new) }
{
    let span = choice_count(others.len());
    let slots = group_slots(group, others, places, span);
    fold(word, places, &slots, need, work)?;
    let readings = &mut work[..need];
    transform_parts(readings, span, group.len() + 2);
    let lists = Lists {
        readings,
        span,
        count: group.len(),
    };
    Ok(lists.best())
}

// The group finder of the plain finder's rows, the first `group` of which are the card's group.
fn with_group(plain: PlainFinder, card: &FinishedCard, group: usize) -> GroupFinder
    requires plain { ⟦<PlainFinder as Finder>⟧.meaning plain ≡ card_meaning plain_need_of card.now }
    requires group { group ≡ length card.now.group }
    requires lawful { Lawful card.now }
    ensures meaning { ⟦<GroupFinder as Finder>⟧.meaning result ≡ card_meaning group_need_of card.now }
    ensures group { result.group ≡ group }
{
    GroupFinder { plain, group }
}

impl GroupFinder {
    // The group finder of a card's group and transform rows.
    pub fn new(card: &FinishedCard) -> GroupFinder
        ensures meaning { ⟦<GroupFinder as Finder>⟧.meaning result ≡ card_meaning group_need_of card.now }
        ensures group { result.group ≡ length card.now.group }
    {
        let group = card.section_rows(Section::Group).len();
        with_group(PlainFinder::new(card), card, group)
    }

    // The rows that concur.
    fn group_rows(&self) -> &[u64]
        ensures value { result.now ≡ take self.now.group self.now.plain.rows }
        ensures count { length result.now ≡ self.now.group }
        ensures few { length result.now ≤ max_section_rows }
        ensures concur { Concur result.now }
    {
        &self.plain.rows()[..self.group]
    }

    // The rows after them.
    fn other_rows(&self) -> &[u64]
        ensures joined { take self.now.group self.now.plain.rows ++ result.now ≡ self.now.plain.rows }
        ensures count { length result.now ≡ length self.now.plain.rows - self.now.group }
        ensures few { length result.now ≤ max_section_rows }
    {
        &self.plain.rows()[self.group..]
    }
}

impl OfCard for GroupFinder {
    ghost need_of = { group_need_of };

    fn of_card(card: &FinishedCard) -> GroupFinder {
        GroupFinder::new(card)
    }
}

impl Finder for GroupFinder {
    ghost meaning = { λ s. record { span = s.plain.span; rows = s.plain.rows; need = group_need s.group (length s.plain.rows - s.group) } };

    ghost lawful = { λ s.
        let rows = s.plain.rows in
        let a = s.few.0 in
        let b = s.few.1 in
        let d = s.few.2 in
        let l : length rows ≡ s.group + (length rows - s.group) = omega arith in
        group_lawful s.plain.span rows s.group (length rows - s.group) l s.plain.sized (omega arith) s.plain.within };

    fn length(&self) -> WordLength {
        self.plain.length()
    }

    fn row_count(&self) -> usize {
        self.plain.row_count()
    }

    fn row(&self, j: usize) -> Option<u64> {
        self.plain.row(j)
    }

    fn need(&self) -> usize {
        need_of(self.group_rows().len(), self.other_rows().len())
    }

    fn search<R: Reading>(&self, word: &mut [R], work: &mut [R]) -> Result<Found<R>, Refusal> {
        search_group(
            self.group_rows(),
            self.other_rows(),
            self.length(),
            self.need(),
            word,
            work,
        )
    }
}

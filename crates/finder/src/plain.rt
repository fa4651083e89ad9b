ghost use Rattle.std.specs.Prelude.{◌≡◌, ◌+◌, ◌^◌, ◌<◌, ◌≤◌, length, MatchResult};
ghost use Rattle.code.specs.Limits.{Length};
ghost use Rattle.code.specs.Words.{Top};
ghost use Rattle.card.specs.Rows.{Within};
ghost use Rattle.hadamard.specs.Transform.{weight_at};
ghost use Rattle.finder.specs.Search.{Answered, Refused};
ghost use Rattle.finder.specs.Fold.{column_rows};
ghost use Rattle.finder.specs.OfCard.{card_meaning, plain_need_of};
ghost use Rattle.finder.specs.PlainRows.{plain_lawful};

use crate::Finder;
use crate::fold::{COLUMN_ROWS, columns, fold};
use crate::found::Found;
use card::states::FinishedCard;
use code::length::WordLength;
use code::refusal::{Refusal, Section};
use code::rows::Rows;
use hadamard::transform;
use reading::Reading;

// The plain finder: a word length, and at most 16 rows within it.
#[derive(Clone, Copy)]
pub struct PlainFinder {
    span: WordLength,
    rows: Rows<COLUMN_ROWS>,
    ghost sized: { Length span },
    ghost few: { length rows ≤ column_rows },
    ghost within: { Within span rows },
}

// The first entry of the greatest weight.
fn first_largest<R: Reading>(list: &[R]) -> Found<R>
    requires { (0 < length list.now) × (length list.now ≤ 2 ^ column_rows) }
    ensures top { Top (weight_at R.Reading.weight list.now) (length list.now) result.message }
    ensures weighs { R.Reading.weight result.reading ≡ weight_at R.Reading.weight list.now result.message }
{
    let mut best = Found {
        message: 0,
        reading: list[0],
    };
    for (i, reading) in list[1..].iter().enumerate() {
        let next = Found {
            message: i as u32 + 1,
            reading: *reading,
        };
        best = best.or_heavier(next);
    }
    best
}

// The number of messages of so many rows.
fn message_count(rows: usize) -> usize
    requires { rows ≤ column_rows }
    ensures { result ≡ 2 ^ rows }
{
    1usize << rows
}

// Folds the word by the columns of the rows, transforms the list and takes its first largest entry.
// `sized` is the invariant of a word length, which a caller knows from its own field. `need` is handed in by `search`, where a wrong one is refused by a fact.
fn search_rows<R: Reading>(
    rows: &[u64],
    span: WordLength,
    need: usize,
    word: &[R],
    work: &mut [R],
) -> Result<Found<R>, Refusal>
    requires sized { Length span }
    requires few { length rows.now ≤ column_rows }
    requires room { need ≡ 2 ^ length rows.now }
    ensures { MatchResult result
        (Answered R.Reading (record { span = span; rows = rows.now; need = need }) word.now work.old work.new)
        (Refused R.Reading.size span need word.now work.old work.new) }
{
    let slots = columns(rows, span);
    fold(word, span, &slots, need, work)?;
    let list = &mut work[0..need];
    transform(list).unwrap();
    Ok(first_largest(list))
}

// The plain finder of the first `count` rows of a card, which are those of its group and transform sections.
fn first_rows(card: &FinishedCard, count: usize) -> PlainFinder
    requires { count ≡ length card.now.group + length card.now.transform }
    ensures { ⟦<PlainFinder as Finder>⟧.meaning result ≡ card_meaning plain_need_of card.now }
{
    PlainFinder {
        span: card.word_length(),
        rows: Rows::first_of(&card.rows()[0..count]),
    }
}

impl PlainFinder {
    // The plain finder of a card's group and transform rows.
    pub fn new(card: &FinishedCard) -> PlainFinder
        ensures { ⟦<PlainFinder as Finder>⟧.meaning result ≡ card_meaning plain_need_of card.now }
    {
        let group = card.section_rows(Section::Group).len();
        let transform = card.section_rows(Section::Transform).len();
        first_rows(card, group + transform)
    }

    // The rows, in their order.
    pub fn rows(&self) -> &[u64]
        ensures value { result.now ≡ self.now.rows }
        ensures few { length result.now ≤ column_rows }
    {
        self.rows.as_slice()
    }
}

impl Finder for PlainFinder {
    ghost meaning = { λ s. record { span = s.span; rows = s.rows; need = 2 ^ length s.rows } };

    ghost lawful = { λ s. plain_lawful s.span s.rows s.sized s.few s.within };

    fn length(&self) -> WordLength {
        self.span
    }

    fn row_count(&self) -> usize {
        self.rows().len()
    }

    fn row(&self, j: usize) -> Option<u64> {
        self.rows().get(j).copied()
    }

    fn need(&self) -> usize {
        message_count(self.rows().len())
    }

    fn search<R: Reading>(&self, word: &mut [R], work: &mut [R]) -> Result<Found<R>, Refusal> {
        search_rows(self.rows(), self.span, self.need(), word, work)
    }
}

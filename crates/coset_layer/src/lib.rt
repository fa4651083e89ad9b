#![tactic(auto)]

ghost use Rattle.std.specs.Prelude.{◌≡◌, ℕ, ◌+◌, ◌-◌, ◌*◌, ◌%◌, ◌^◌, ◌<◌, ◌≤◌, List, [], ◌∷◌, ◌++◌, map, length, take, drop, Some, MatchResult, OnOk, nat_lt};
ghost use Rattle.std.specs.List.{AllByRecursion};
ghost use Rattle.card.specs.Cards.{Lawful, rows_of};
ghost use Rattle.code.specs.Limits.{max_places, max_rows, sum_limit};
ghost use Rattle.code.specs.Words.{Best, agrees, negated_at};
ghost use Rattle.finder.specs.Search.{Answered, Refused, refusal};
ghost use Rattle.coset_layer.specs.Layers.{layer_meaning};
ghost use Rattle.coset_layer.specs.Pile.{above, layer_rows, opposite_at, pile_rows, row_verdict};
ghost use Rattle.coset_layer.specs.Piles.{pile_lawful};

use card::states::FinishedCard;
use code::length::WordLength;
use code::limits::{MAX_PLACES, MAX_ROWS};
use code::refusal::{Refusal, Section};
use code::rows::Rows;
use code::words::word_of;
use finder::Finder;
use finder::found::Found;
use reading::Reading;

// The largest number of rows of one layer.
const LAYER_ROWS: usize = 4;

// A finder below, and up to four rows of its own above the rows of that finder.
#[derive(Clone, Copy)]
pub struct CosetLayer<F> {
    below: F,
    own: Rows<LAYER_ROWS>,
}

// The digits of a row at the first `n` places; 2^64 is no u64, so all 64 are a case of their own.
fn first_digits(row: u64, n: usize) -> u64
    requires { n ≤ max_places }
    ensures { result ≡ row % 2 ^ n }
{
    if n < MAX_PLACES {
        row % (1u64 << n)
    } else {
        row
    }
}

// Whether a row has no digit beyond the first `n` places.
fn within(row: u64, n: usize) -> bool
    requires { n ≤ max_places }
    ensures { result ≡ nat_lt row (2 ^ n) }
{
    n >= MAX_PLACES || row < 1u64 << n
}

// Replaces each reading by its opposite where the mask has digit 1; the same again puts the word back.
fn negate_at<R: Reading>(word: &mut [R], mask: u64)
    requires { AllByRecursion (λ x. R.Reading.size x ≤ sum_limit) word.old }
    ensures negated { word.new ≡ opposite_at R.Reading.opposite word.old mask }
    ensures back { opposite_at R.Reading.opposite word.new mask ≡ word.old }
    ensures small { AllByRecursion (λ x. R.Reading.size x ≤ sum_limit) word.new }
    ensures sizes { map R.Reading.size word.new ≡ map R.Reading.size word.old }
    ensures weights { map R.Reading.weight word.new ≡ negated_at (map R.Reading.weight word.old) mask }
{
    // Not `mask >> i`, which asks that the word has at most 64 places.
    let mut rest = mask;
    for x in word.iter_mut() {
        if rest % 2 == 1 {
            *x = x.negate();
        }
        rest /= 2;
    }
}

// Searches below for the word negated where the mask has digit 1, and puts the word back.
fn search_negated<R: Reading, F: Finder>(
    below: &F,
    mask: u64,
    word: &mut [R],
    work: &mut [R],
) -> Result<Found<R>, Refusal>
    requires { AllByRecursion (λ x. R.Reading.size x ≤ sum_limit) word.old }
    ensures same { word.new ≡ word.old }
    ensures answer { MatchResult result
        (λ f. Best (F.Finder.meaning below.now).rows (negated_at (map R.Reading.weight word.old) mask) f.message
        × (R.Reading.weight f.reading ≡ agrees (F.Finder.meaning below.now).rows (negated_at (map R.Reading.weight word.old) mask) f.message)
        × (drop (F.Finder.meaning below.now).need work.new ≡ drop (F.Finder.meaning below.now).need work.old))
        (λ e. refusal (F.Finder.meaning below.now).span (F.Finder.meaning below.now).need (map R.Reading.size word.old) (length work.old) ≡ Some e) }
{
    negate_at(word, mask);
    let found = below.search(word, work);
    negate_at(word, mask);
    found
}

// Searches below for each choice of the layer's own rows; k is the number of rows below, handed in by `search`, where a
// wrong one is refused by a fact; computed here it would be no plainer.
fn search_choices<R: Reading, F: Finder>(
    below: &F,
    own: &[u64],
    k: usize,
    word: &mut [R],
    work: &mut [R],
) -> Result<Found<R>, Refusal>
    requires count { k ≡ length (F.Finder.meaning below.now).rows }
    requires few { length own.now ≤ layer_rows }
    requires room { length own.now + length (F.Finder.meaning below.now).rows ≤ max_rows }
    ensures same { word.new ≡ word.old }
    ensures answer { MatchResult result
        (Answered R.Reading (above (F.Finder.meaning below.now) own.now) word.old work.old work.new)
        (Refused R.Reading.size (F.Finder.meaning below.now).span (F.Finder.meaning below.now).need word.old work.old work.new) }
{
    let n = below.length().places();
    let mut best = below.search(word, work)?;
    for choice in 1..1u32 << own.len() {
        let mask = first_digits(word_of(own, choice as u64), n);
        let found = search_negated(below, mask, word, work)?;
        let piled = Found {
            message: found.message + (choice << k),
            reading: found.reading,
        };
        best = best.or_heavier(piled);
    }
    Ok(best)
}

// The checks of a row added to `count` rows above k rows of length n. A row that passes them is read whole.
fn check_row(n: usize, k: usize, count: usize, row: u64) -> Result<(), Refusal>
    requires { (n ≤ max_places) × ((k ≤ max_rows) × (count ≤ layer_rows)) }
    ensures value { result ≡ row_verdict n k count row }
    ensures room { OnOk result (count < layer_rows) }
    ensures whole { OnOk result ((below own : List ℕ) → length below ≡ k → length own ≡ count → pile_rows n below (own ++ row ∷ []) ≡ pile_rows n below own ++ row ∷ []) }
{
    if !within(row, n) {
        return Err(Refusal::DigitBeyondLength {
            section: Section::Coset,
            index: count,
        });
    }
    if count >= LAYER_ROWS {
        return Err(Refusal::LayerFull);
    }
    if k + count >= MAX_ROWS {
        return Err(Refusal::PileFull);
    }
    Ok(())
}

// Two layers of the coset rows of a card: the first four, and above them the others.
fn on_card<F: Finder>(below: F, card: &FinishedCard, coset: &[u64]) -> CosetLayer<CosetLayer<F>>
    requires coset { coset.now ≡ card.now.coset }
    requires lawful { Lawful card.now }
    ensures below { result.below.below ≡ below }
    ensures lower { result.below.own ≡ take layer_rows card.now.coset }
    ensures upper { result.own ≡ take layer_rows (drop layer_rows card.now.coset) }
    ensures rows { (F.Finder.meaning below).span ≡ card.now.len → (F.Finder.meaning below).rows ≡ card.now.group ++ card.now.transform
        → (layer_meaning (layer_meaning F.Finder.meaning) result).rows ≡ rows_of card.now }
{
    let (lower, upper) = coset.split_at(coset.len().min(LAYER_ROWS));
    let first = CosetLayer {
        below,
        own: Rows::first_of(lower),
    };
    CosetLayer {
        below: first,
        own: Rows::first_of(upper),
    }
}

// A finder under two layers with the coset rows of a card, four to a layer.
// Where the finder has the length and the group and transform rows of the card, the rows of the whole are the card's, in their order.
pub fn card_layers<F: Finder>(below: F, card: &FinishedCard) -> CosetLayer<CosetLayer<F>>
    ensures below { result.below.below ≡ below }
    ensures lower { result.below.own ≡ take layer_rows card.now.coset }
    ensures upper { result.own ≡ take layer_rows (drop layer_rows card.now.coset) }
    ensures rows { (F.Finder.meaning below).span ≡ card.now.len → (F.Finder.meaning below).rows ≡ card.now.group ++ card.now.transform
        → (layer_meaning (layer_meaning F.Finder.meaning) result).rows ≡ rows_of card.now }
{
    on_card(below, card, card.section_rows(Section::Coset))
}

impl<F: Finder> CosetLayer<F> {
    // The rows of its own that the layer reads: as many as keep the pile at 24.
    fn own_rows(&self) -> &[u64]
        ensures value { result.now ≡ take (max_rows - length (F.Finder.meaning self.now.below).rows) self.now.own }
        ensures few { length result.now ≤ layer_rows }
        ensures room { length result.now + length (F.Finder.meaning self.now.below).rows ≤ max_rows }
    {
        let own = self.own.as_slice();
        &own[0..own.len().min(MAX_ROWS - self.below.row_count())]
    }

    // A layer with no rows of its own yet.
    pub fn new(below: F) -> CosetLayer<F>
        ensures below { result.below ≡ below }
        ensures own { result.own ≡ [] }
    {
        CosetLayer {
            below,
            own: Rows::new(),
        }
    }

    // Adds a row of its own, or turns it down and leaves the layer as it was. The row may depend on others.
    pub fn add_row(&mut self, row: u64) -> Result<(), Refusal>
        ensures value { result ≡ row_verdict (F.Finder.meaning self.old.below).span (length (F.Finder.meaning self.old.below).rows) (length self.old.own) row }
        ensures below { self.new.below ≡ self.old.below }
        ensures own { MatchResult result
            (λ _. self.new.own ≡ self.old.own ++ row ∷ [])
            (λ _. self.new ≡ self.old) }
        ensures rows { MatchResult result
            (λ _. (layer_meaning F.Finder.meaning self.new).rows ≡ (layer_meaning F.Finder.meaning self.old).rows ++ row ∷ [])
            (λ _. Unit {0}) }
        ensures few { length self.new.own ≤ layer_rows }
    {
        let n = self.below.length().places();
        let k = self.below.row_count();
        check_row(n, k, self.own.as_slice().len(), row)?;
        self.own.push(row);
        Ok(())
    }
}

impl<F: Finder> Finder for CosetLayer<F> {
    ghost meaning = { layer_meaning F.Finder.meaning };

    ghost lawful = { λ s. pile_lawful (F.Finder.meaning s.below) s.own (F.Finder.lawful s.below) };

    fn length(&self) -> WordLength {
        self.below.length()
    }

    fn row_count(&self) -> usize {
        self.below.row_count() + self.own_rows().len()
    }

    fn row(&self, j: usize) -> Option<u64> {
        let k = self.below.row_count();
        if j < k {
            return self.below.row(j);
        }
        let n = self.below.length().places();
        let row = self.own_rows().get(j - k)?;
        Some(first_digits(*row, n))
    }

    fn need(&self) -> usize {
        self.below.need()
    }

    fn search<R: Reading>(&self, word: &mut [R], work: &mut [R]) -> Result<Found<R>, Refusal> {
        let k = self.below.row_count();
        search_choices(&self.below, self.own_rows(), k, word, work)
    }
}

ghost use Rattle.std.specs.Prelude.{◌≡◌, ℕ, ◌*◌, ◌<◌, ◌≤◌, map, length, take, pos, position, sum_by, MatchResult, nat_lt, slice_index};
ghost use Rattle.std.specs.List.{AllByRecursion};
ghost use Rattle.code.specs.Limits.{max_places, size_limit};
ghost use Rattle.hadamard.specs.Transform.{weight_at};
ghost use Rattle.finder.specs.Search.{Refused, refusal};
ghost use Rattle.finder.specs.Fold.{Folded, column, column_rows, sum_of_slot};

use code::length::WordLength;
use code::limits::SIZE_LIMIT;
use code::refusal::Refusal;
use reading::Reading;

// The largest number of rows of which a column is taken.
pub(crate) const COLUMN_ROWS: usize = 16;

// For each place of a word the number whose digit j is the digit of row j there, of at most the first 16 rows.
// An array of 64, since the library uses no heap; the places beyond the length are not used.
pub fn columns(rows: &[u64], length: WordLength) -> [usize; 64]
    ensures { (i : ℕ) → i < length → slice_index result i ≡ column (take column_rows rows.now) i }
{
    all_columns(rows, length.places())
}

fn all_columns(rows: &[u64], n: usize) -> [usize; 64]
    requires { n ≤ max_places }
    ensures { (i : ℕ) → i < n → slice_index result i ≡ column (take column_rows rows.now) i }
{
    let mut slots = [0; 64];
    for (i, slot) in slots[..n].iter_mut().enumerate() {
        *slot = column_of(rows, i);
    }
    slots
}

fn column_of(rows: &[u64], i: usize) -> usize
    requires { i < max_places }
    ensures { result ≡ column (take column_rows rows.now) i }
{
    let few = &rows[..rows.len().min(COLUMN_ROWS)];
    few.iter()
        .rev()
        .fold(0, |c, row| c << 1 | (row >> i) as usize % 2)
}

// The first place of a size above the limit.
fn first_large<R: Reading>(word: &[R]) -> Option<usize>
    ensures { result ≡ position (λ x. nat_lt size_limit (R.Reading.size x)) word.now }
{
    word.iter().position(|x| x.size() > SIZE_LIMIT)
}

// The checks of a word and of so much work memory, in their order.
fn check<R: Reading>(word: &[R], n: usize, need: usize, have: usize) -> Result<(), Refusal>
    ensures { MatchResult result
        (λ _. refusal n need (map R.Reading.size word.now) have ≡ None)
        (λ e. refusal n need (map R.Reading.size word.now) have ≡ Some e) }
{
    if word.len() != n {
        return Err(Refusal::WordLengthDiffers);
    }
    if let Some(place) = first_large(word) {
        return Err(Refusal::SizeTooLarge { place });
    }
    if have < need {
        return Err(Refusal::WorkMemoryShort);
    }
    Ok(())
}

// Sets each entry to a reading of no weight and no size.
fn blank<R: Reading>(list: &mut [R])
    ensures weights { (x : ℕ) → x < length list.new → weight_at R.Reading.weight list.new x ≡ pos 0 }
    ensures sizes { sum_by R.Reading.size list.new ≡ 0 }
{
    // Not `fill`, which asks that a clone of a reading cannot fail.
    let zero = R::make(0, 0);
    for x in list.iter_mut() {
        *x = zero;
    }
}

// Adds each reading of the word to the entry of its slot, where there is such an entry.
fn scatter<R: Reading>(word: &[R], slots: &[usize], list: &mut [R])
    requires fits { (length word.now ≤ length slots.now) × (length word.now ≤ max_places) }
    requires small { AllByRecursion (λ x. R.Reading.size x ≤ size_limit) word.now }
    requires blank { (x : ℕ) → x < length list.old → weight_at R.Reading.weight list.old x ≡ pos 0 }
    requires empty { sum_by R.Reading.size list.old ≡ 0 }
    ensures sums { (x : ℕ) → x < length list.new → weight_at R.Reading.weight list.new x ≡ sum_of_slot (λ i. slice_index slots.now i) (weight_at R.Reading.weight word.now) (length word.now) x }
    ensures total { sum_by R.Reading.size list.new ≤ length word.now * size_limit }
{
    for (x, slot) in word.iter().zip(slots) {
        // Not `get_mut`: a proof does not see in the list what is written through it.
        let at = *slot;
        if at < list.len() {
            list[at] = list[at].add(*x);
        }
    }
}

fn fold_checked<R: Reading>(
    word: &[R],
    n: usize,
    slots: &[usize],
    need: usize,
    work: &mut [R],
) -> Result<(), Refusal>
    requires { (n ≤ max_places) × (length slots.now ≡ max_places) }
    ensures { MatchResult result
        (λ _. Folded R.Reading n need slots.now word.now work.old work.new)
        (λ e. Refused R.Reading.size n need word.now work.old work.new e) }
{
    check(word, n, need, work.len())?;
    let list = &mut work[0..need];
    blank(list);
    scatter(word, slots, list);
    Ok(())
}

// Checks a search, and folds its word into the first `need` entries of the work memory: each reading is added to the entry of its place's slot.
// A reading whose slot is not below the need is left out; a refusal changes nothing.
// The five are what a fold is about, and only `fold_checked` takes the same; a struct for them would be no plainer.
pub fn fold<R: Reading>(
    word: &[R],
    length: WordLength,
    slots: &[usize; 64],
    need: usize,
    work: &mut [R],
) -> Result<(), Refusal>
    ensures { MatchResult result
        (λ _. Folded R.Reading length need slots.now word.now work.old work.new)
        (λ e. Refused R.Reading.size length need word.now work.old work.new e) }
{
    fold_checked(word, length.places(), slots, need, work)
}

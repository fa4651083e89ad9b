ghost use Rattle.std.specs.Prelude.{◌≡◌, ℕ, ◌+◌, ◌*◌, ◌/◌, ◌^◌, ◌<◌, ◌≤◌, length, sum_by, MatchOption, ◌≢◌, slice_index};
ghost use Rattle.card.specs.Cards.{max_section_rows};
ghost use Rattle.code.specs.Limits.{sum_limit};
ghost use Rattle.finder.specs.Fold.{column};
ghost use Rattle.group_finder.specs.Choices.{Concurs, PartsDone, Slotted};

use code::length::WordLength;
use finder::fold::columns;
use hadamard::transform;
use reading::Reading;

// The slot j + 1 of a column in which row j alone has digit 1, if it is one; another column, if it is not 0, has all of at least two digits.
fn single_slot(c: usize, count: usize) -> Option<usize>
    requires { (count ≤ max_section_rows) × (Concurs count c) }
    ensures { MatchOption result ((c ≢ 0) → Slotted count c (count + 1)) (λ q. Slotted count c q) }
{
    if c.is_power_of_two() {
        Some(c.trailing_zeros() as usize + 1)
    } else {
        None
    }
}

// The slot of a place by its column of the group rows: 0 where no row has digit 1 there, j + 1 where row j alone has it, count + 1 where all of at least two have it.
fn slot_of(c: usize, count: usize) -> usize
    requires { (count ≤ max_section_rows) × (Concurs count c) }
    ensures { Slotted count c result }
{
    if c == 0 {
        return 0;
    }
    single_slot(c, count).unwrap_or(count + 1)
}

// For each place of a word the entry that its reading goes to: its slot's list, and there its column of the other rows.
// A loop by number: beyond the word's places nothing is known of the two columns. An array of 64, since the library uses no heap.
pub(crate) fn group_slots(
    group: &[u64],
    others: &[u64],
    places: WordLength,
    span: usize,
) -> [usize; 64]
    requires few { (length group.now ≤ max_section_rows) × (length others.now ≤ max_section_rows) × (span ≡ 2 ^ length others.now) }
    requires concurs { (i : ℕ) → Concurs (length group.now) (column group.now i) }
    ensures slots { (i : ℕ) → i < places → Slotted (length group.now) (column group.now i) (slice_index result i / span) }
    ensures entries { (i : ℕ) → i < places → slice_index result i ≡ slice_index result i / span * span + column others.now i }
{
    let groups = columns(group, places);
    let mut slots = columns(others, places);
    for i in 0..places.places() {
        let slot = slot_of(groups[i], group.len());
        slots[i] = slot * span + slots[i];
    }
    slots
}

// Transforms each of so many lists that lie one after the other.
// A loop by number: a proof knows no element of a slice after `chunks_exact_mut`.
pub(crate) fn transform_parts<R: Reading>(lists: &mut [R], span: usize, count: usize)
    requires power { (t : ℕ) × ((t ≤ max_section_rows) × (span ≡ 2 ^ t)) }
    requires few { count ≤ max_section_rows + 2 }
    requires long { length lists.old ≡ count * span }
    requires small { sum_by R.Reading.size lists.old ≤ sum_limit }
    ensures { PartsDone R.Reading span count lists.old lists.new }
{
    for q in 0..count {
        let from = q * span;
        transform(&mut lists[from..from + span]).unwrap();
    }
}

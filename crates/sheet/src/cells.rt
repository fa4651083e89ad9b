ghost use Rattle.std.specs.Prelude.{◌≡◌, ℕ, ◌+◌, ◌<◌, ◌≤◌, min, true, false, length, MatchResult, slice_index_or};
ghost use Rattle.code.specs.Limits.{max_places, full_label, sum_limit};
ghost use Rattle.sample.specs.Samples.{Good, AllGood};
ghost use Rattle.sheet.specs.Cells.{Blank, AllBlank, Grown, Fits, Overgrown, FirstOvergrown, PassFits, PassFails, Added, Passed};

use code::limits::{MAX_PLACES, SIZE_LIMIT};
use code::refusal::Refusal;
use reading::Reading;
use sample::{Labels, Sample, check_samples};

// The largest number of passes that a sheet takes.
const MAX_PASSES: u32 = 1024;

// The largest size to which the reading of any sample may be added: 2^28 less the largest label.
const LARGEST_ADDED: u32 = 268434432;

// How many of so many cells a sheet covers.
pub(crate) fn covering(len: usize) -> usize
    ensures { result ≡ min max_places len }
{
    len.min(MAX_PLACES)
}

// The reading made from 0 and 0.
pub(crate) fn blank<R: Reading>() -> R
    ensures { Blank R.Reading result }
{
    R::make(0, 0)
}

// Sets each cell to the reading made from 0 and 0. `fold` of `finder` blanks its list likewise; shared, the few lines would be no plainer.
pub(crate) fn lay_out<R: Reading>(cells: &mut [R])
    ensures { AllBlank R.Reading cells.new }
{
    for cell in cells.iter_mut() {
        *cell = blank();
    }
}

// A cell with the reading made from the sample added, which stands at that place.
fn grown<R: Reading>(cell: R, sample: &Sample, place: usize) -> R
    requires room { R.Reading.size cell + full_label ≤ sum_limit }
    requires good { Good sample.now }
    ensures { Grown R.Reading sample.now cell result }
{
    let Labels { main, second } = sample.labels(place).unwrap();
    cell.add(R::make(main, second))
}

// Whether the cell takes the sample.
fn takes<R: Reading>(cell: R, sample: &Sample, place: usize) -> bool
    requires { Good sample.now }
    ensures yes { result ≡ true → Fits R.Reading sample.now cell }
    ensures no { result ≡ false → Overgrown R.Reading sample.now cell }
{
    cell.size() <= LARGEST_ADDED && grown(cell, sample, place).size() <= SIZE_LIMIT
}

// Checks that each cell takes its sample; refuses the first that does not.
fn check_sizes<R: Reading>(cells: &[R], samples: &[Sample]) -> Result<(), Refusal>
    requires { (length samples.now ≡ length cells.now) × (AllGood samples.now) }
    ensures { MatchResult result
        (λ _. (k : ℕ) (x : Sample) (d : R) → k < length samples.now → Fits R.Reading (slice_index_or samples.now k x) (slice_index_or cells.now k d))
        (FirstOvergrown R.Reading samples.now cells.now) }
{
    // `cells.iter().zip(samples).enumerate()` leaves the refusal unproved: no lemma of std says which pair such a loop is at.
    for (place, sample) in samples.iter().enumerate() {
        if !takes(cells[place], sample, place) {
            return Err(Refusal::SizeTooLarge { place });
        }
    }
    Ok(())
}

// The checks of a pass, in their order: its length, the passes taken, its samples, the new sizes.
fn check_pass<R: Reading>(cells: &[R], passes: u32, samples: &[Sample]) -> Result<(), Refusal>
    ensures { MatchResult result
        (λ _. PassFits R.Reading samples.now passes cells.now)
        (PassFails R.Reading samples.now passes cells.now) }
{
    if samples.len() != cells.len() {
        return Err(Refusal::PassLengthDiffers);
    }
    if passes >= MAX_PASSES {
        return Err(Refusal::TooManyPasses);
    }
    check_samples(samples)?;
    check_sizes(cells, samples)
}

// Adds to each cell the reading made from its sample.
// The sample goes by number: after a zip with `iter_mut` a proof knows no cell.
fn add_samples<R: Reading>(cells: &mut [R], samples: &[Sample])
    requires long { length samples.now ≡ length cells.old }
    requires good { AllGood samples.now }
    requires fits { (k : ℕ) (x : Sample) (d : R) → k < length samples.now → Fits R.Reading (slice_index_or samples.now k x) (slice_index_or cells.old k d) }
    ensures { Added R.Reading samples.now (length samples.now) cells.old cells.new }
{
    for (place, cell) in cells.iter_mut().enumerate() {
        *cell = grown(*cell, &samples[place], place);
    }
}

// A pass over exactly these cells: first checked whole, then added. Answers the new pass count; a refusal leaves the cells.
pub(crate) fn add_pass<R: Reading>(
    cells: &mut [R],
    passes: u32,
    samples: &[Sample],
) -> Result<u32, Refusal>
    ensures { MatchResult result
        (Passed R.Reading samples.now passes cells.old cells.new)
        (λ e. PassFails R.Reading samples.now passes cells.old e × (cells.new ≡ cells.old)) }
{
    check_pass(cells, passes, samples)?;
    add_samples(cells, samples);
    Ok(passes + 1)
}

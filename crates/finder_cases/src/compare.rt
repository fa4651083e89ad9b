// Each finder beside the plain search.
use crate::plainly::Due;
use anyhow::{Result, anyhow, ensure};
use code::refusal::Refusal;
use finder::Finder;
use finder::found::Found;
use reading::Reading;
use reading::level::Level;
use reading::two_head::TwoHead;
use std::alloc::Global;

// The readings of work memory of a search: as many as a card of 12 rows can need.
pub(crate) const WORK: usize = 4100;

// A kind of reading whose small weights fit 64 bits, and that can be compared in every field.
pub trait Weighed: Reading + PartialEq {
    // The reading that fills the work memory before a search.
    const MARK: Self;

    fn weighed(self) -> i64;
}

impl Weighed for Level {
    const MARK: Level = Level { value: 77 };

    fn weighed(self) -> i64 {
        i64::from(self.value)
    }
}

impl Weighed for TwoHead {
    const MARK: TwoHead = TwoHead { main: 7, second: 7 };

    fn weighed(self) -> i64 {
        i64::from(self.main)
            .wrapping_mul(4294967296)
            .wrapping_add(i64::from(self.second))
    }
}

// What is said where there is no memory left.
pub(crate) fn no_memory<E: Drop>(_error: E) -> anyhow::Error {
    anyhow!("Memory")
}

// Searches a word in marked work memory of so many readings, and gives that memory too; the word is the same afterwards.
fn search_marked<R: Weighed, F: Finder>(
    alloc: Global,
    finder: &F,
    word: &[R],
    room: usize,
) -> Result<(Result<Found<R>, Refusal>, Vec<R>)> {
    let mut work = vec![in alloc; R::MARK; room].map_err(no_memory)?;
    let mut lent = word.to_vec(alloc).map_err(no_memory)?;
    let answer = finder.search(&mut lent, &mut work);
    ensure!(lent.as_slice() == word);
    Ok((answer, work))
}

// A search that answers what is due, and leaves the word and the memory beyond the need as they were.
pub(crate) fn finds<R: Weighed, F: Finder>(
    alloc: Global,
    finder: &F,
    word: &[R],
    due: Due,
) -> Result<()> {
    let (answer, work) = search_marked(alloc, finder, word, WORK)?;
    let found = answer?;
    ensure!(found.message == due.message);
    ensure!(found.reading.weighed() == due.agreement);
    ensure!(work.iter().skip(finder.need()).all(|x| *x == R::MARK));
    Ok(())
}

// A search in so much work memory that is refused so, and changes nothing.
pub(crate) fn refuses<R: Weighed, F: Finder>(
    alloc: Global,
    finder: &F,
    word: &[R],
    room: usize,
    due: Refusal,
) -> Result<()> {
    let (answer, work) = search_marked(alloc, finder, word, room)?;
    ensure!(answer.err() == Some(due));
    ensure!(work.iter().all(|x| *x == R::MARK));
    Ok(())
}

// The rows that a finder tells are those of the card, and there is none beyond the last.
pub(crate) fn tells<F: Finder>(finder: &F, rows: &[u64]) -> Result<()> {
    ensure!(finder.row_count() == rows.len());
    ensure!((0..=rows.len()).all(|j| finder.row(j) == rows.get(j).copied()));
    Ok(())
}

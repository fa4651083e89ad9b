// One card: its finders, words and refusals.
use crate::compare::{WORK, Weighed, finds, no_memory, refuses, tells};
use crate::plainly::{Due, search_all};
use crate::random::{MOST_ROWS, Random};
use anyhow::Result;
use card::states::FinishedCard;
use card_finder::card_finder;
use code::refusal::{Refusal, Section};
use coset_layer::CosetLayer;
use finder::Finder;
use finder::either::Either;
use finder::of_card::OfCard;
use finder::plain::PlainFinder;
use group_finder::GroupFinder;
use reading::level::Level;
use reading::two_head::TwoHead;
use std::alloc::Global;
use std::array;

// What was gone through.
#[derive(Clone, Copy, Default)]
pub struct Seen {
    pub cards: u32,
    pub words: u32,
    pub ties: u32,
    pub searches: u32,
    pub layers: u32,
    pub refusals: u32,
}

// The trials of one card.
#[derive(Drop)]
pub(crate) struct Trial<'a> {
    pub(crate) alloc: Global,
    pub(crate) card: &'a FinishedCard,
    pub(crate) random: Random,
    pub(crate) seen: &'a mut Seen,
}

impl<'a> Trial<'a> {
    // A word searched with the finder F under the coset layers of the card.
    fn try_finder<F: OfCard + Drop, R: Weighed>(&self, word: &[R], due: Due) -> Result<()> {
        let finder = card_finder::<F>(self.card);
        tells(&finder, self.card.rows())?;
        finds(self.alloc, &finder, word, due)
    }

    // A word searched with the plain finder, the group finder and one of the two, each under the coset layers of the card.
    fn try_word<R: Weighed>(&mut self, word: &[R]) -> Result<()> {
        let due = search_all(self.card.rows(), word);
        self.try_finder::<PlainFinder, R>(word, due)?;
        self.try_finder::<GroupFinder, R>(word, due)?;
        let either = if due.message % 2 == 0 {
            Either::First(card_finder::<PlainFinder>(self.card))
        } else {
            Either::Second(card_finder::<GroupFinder>(self.card))
        };
        finds(self.alloc, &either, word, due)?;
        self.seen.words = self.seen.words.wrapping_add(1);
        self.seen.searches = self.seen.searches.wrapping_add(3);
        if due.equals > 1 {
            self.seen.ties = self.seen.ties.wrapping_add(1);
        }
        Ok(())
    }

    // The group finder under a layer whose rows may depend on others: the second offered is the first row of all.
    fn try_layer(&mut self, word: &[Level]) -> Result<()> {
        let mut rows = self
            .card
            .section_rows(Section::Group)
            .to_vec(self.alloc)
            .map_err(no_memory)?;
        rows.extend_from_slice(self.card.section_rows(Section::Transform))
            .map_err(no_memory)?;
        let mut layer = CosetLayer::new(GroupFinder::new(self.card));
        let mut offered: [u64; 4] = array::from_fn(|_| self.random.row(word.len()));
        offered[1] = rows.first().copied().unwrap_or(offered[0]);
        for row in offered {
            if rows.len() < MOST_ROWS && layer.add_row(row).is_ok() {
                rows.push(row).map_err(no_memory)?;
            }
        }
        let due = search_all(&rows, word);
        tells(&layer, &rows)?;
        finds(self.alloc, &layer, word, due)?;
        self.seen.layers = self.seen.layers.wrapping_add(1);
        Ok(())
    }

    // A word of another length, work memory one below the need, and a reading too large.
    fn try_refusals(&mut self, word: &[Level]) -> Result<()> {
        let alloc = self.alloc;
        let group = card_finder::<GroupFinder>(self.card);
        let half = &word[..word.len() / 2];
        refuses(alloc, &group, half, WORK, Refusal::WordLengthDiffers)?;
        if let Some(short) = group.need().checked_sub(1) {
            refuses(alloc, &group, word, short, Refusal::WorkMemoryShort)?;
        }
        let place = self.random.below(self.card.word_length().places());
        let mut loud = word.to_vec(alloc).map_err(no_memory)?;
        if let Some(reading) = loud.get_mut(place) {
            *reading = Level { value: 1048577 };
            refuses(alloc, &group, &loud, WORK, Refusal::SizeTooLarge { place })?;
        }
        self.seen.refusals = self.seen.refusals.wrapping_add(3);
        Ok(())
    }

    // So many words of each kind, then the layer and the refusals with one word more.
    pub(crate) fn try_card(&mut self, words: u32) -> Result<()> {
        let places = self.card.word_length().places();
        self.seen.cards = self.seen.cards.wrapping_add(1);
        for _ in 0..words {
            let word = level_word(&mut self.random);
            self.try_word(&word[..places])?;
            let word = two_head_word(&mut self.random);
            self.try_word(&word[..places])?;
        }
        let word = level_word(&mut self.random);
        self.try_layer(&word[..places])?;
        self.try_refusals(&word[..places])
    }
}

// A function for each kind: one for both would draw two numbers for a level, and the stored output would change.
fn level_word(random: &mut Random) -> [Level; 64] {
    array::from_fn(|_| Level {
        value: random.small(),
    })
}

fn two_head_word(random: &mut Random) -> [TwoHead; 64] {
    array::from_fn(|_| TwoHead {
        main: random.small(),
        second: random.small(),
    })
}

use crate::{PLACES, WORK, unwritten};
use anyhow::{Context, Result};
use card::states::FinishedCard;
use card_finder::card_finder;
use code::spaced::Spaced;
use code::words::word_of;
use finder::plain::PlainFinder;
use group_finder::GroupFinder;
use reading::level::Level;
use sample::Sample;
use sheet::Sheet;
use std::cmp::Reverse;

// The number of messages of the code.
const MESSAGES: u64 = 16;

// Plays a pass to the sheet and prints its answer and the totals.
fn play(rt: &HostRuntime, sheet: &mut Sheet<Level>, what: &str, samples: &[Sample]) -> Result<()> {
    let count = sheet.pass(samples)?;
    let totals = Spaced(sheet.covered());
    println!(rt; "  {what}: taken as pass {count}, totals {totals}").map_err(unwritten)?;
    Ok(())
}

// Strikes a place of the sheet and prints the totals.
fn strike(rt: &HostRuntime, sheet: &mut Sheet<Level>, place: usize) -> Result<()> {
    sheet.strike(place)?;
    let totals = Spaced(sheet.covered());
    println!(rt; "Place {place} is struck, totals {totals}").map_err(unwritten)?;
    Ok(())
}

// The agreement of a code word with the readings. The case program of finders has another; a library for the two would be no plainer.
fn agreement(word: u64, readings: &[Level]) -> i32 {
    (0..64).zip(readings).fold(0i32, |sum, (place, reading)| {
        if word.wrapping_shr(place) & 1 == 1 {
            sum.wrapping_sub(reading.value)
        } else {
            sum.wrapping_add(reading.value)
        }
    })
}

// Prints the best message but the found one, and by how much it agrees less.
fn show_runner_up(
    rt: &HostRuntime,
    card: &FinishedCard,
    found: u64,
    readings: &[Level],
) -> Result<()> {
    let agreement_of = |message| agreement(word_of(card.rows(), message), readings);
    let second = (0..MESSAGES)
        .filter(|message| *message != found)
        .max_by_key(|message| (agreement_of(*message), Reverse(*message)))
        .context("the code has no other message")?;
    let best = agreement_of(second);
    let lag = agreement_of(found).wrapping_sub(best);
    println!(rt;
        "The runner-up is message {second} with agreement {best}: it lags by {lag}."
    ).map_err(unwritten)?;
    Ok(())
}

// Searches the sheet with both finders of the card and prints what they find.
fn search_both(rt: &HostRuntime, card: &FinishedCard, sheet: &mut Sheet<Level>) -> Result<()> {
    let mut work = [Level { value: 0 }; WORK];
    let (group, plain) = sheet.search_both(
        &card_finder::<GroupFinder>(card),
        &card_finder::<PlainFinder>(card),
        &mut work,
    );
    let (group, plain) = (group?, plain?);
    println!(rt;
        "Searched with the group finder: message {} with agreement {}.",
        group.message, group.reading
    )
    .map_err(unwritten)?;
    println!(rt;
        "Searched with the plain finder: message {} with agreement {}.",
        plain.message, plain.reading
    )
    .map_err(unwritten)?;
    show_runner_up(rt, card, u64::from(group.message), sheet.covered())
}

// Plays a worn strip three times, strikes a scratched place and searches the totals.
pub(crate) fn play_strip(rt: &HostRuntime, card: &FinishedCard) -> Result<()> {
    let mut cells = [Level { value: 0 }; PLACES];
    let mut sheet = Sheet::new(&mut cells);
    let first = [
        Sample::Level(0.75),
        Sample::Level(0.5),
        Sample::Level(-0.5),
        Sample::Dropout,
        Sample::Level(-0.25),
    ];
    play(rt, &mut sheet, "0.75, 0.5, -0.5, dropout, -0.25", &first)?;
    let second = [
        Sample::Level(0.25),
        Sample::Bit(0),
        Sample::Level(0.25),
        Sample::Level(-1.0),
        Sample::Dropout,
    ];
    play(rt, &mut sheet, "0.25, bit 0, 0.25, -1, dropout", &second)?;
    let third = [
        Sample::Dropout,
        Sample::Level(0.75),
        Sample::Level(-0.75),
        Sample::Level(-1.0),
        Sample::Level(-0.5),
    ];
    play(rt, &mut sheet, "dropout, 0.75, -0.75, -1, -0.5", &third)?;
    println!(rt; "Place 3 is scratched and would find another number:").map_err(unwritten)?;
    search_both(rt, card, &mut sheet)?;
    strike(rt, &mut sheet, 3)?;
    search_both(rt, card, &mut sheet)
}

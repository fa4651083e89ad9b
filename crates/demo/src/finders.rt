use crate::PLACES;
use card::states::{FinishedCard, GroupCard};
use card_finder::card_finder;
use code::length::WordLength;
use code::refusal::{Numbered, Refusal};
use code::spaced::Spaced;
use code::words::word_of;
use coset_layer::CosetLayer;
use finder::Finder;
use finder::plain::PlainFinder;
use group_finder::GroupFinder;
use reading::level::Level;
use std::{array, io};

// The words of the Golay code are the multiples of a polynomial with these exponents; its rows are twelve shifts of it.
const GOLAY: u64 = (1 << 0) | (1 << 1) | (1 << 5) | (1 << 6) | (1 << 7) | (1 << 9) | (1 << 11);

const GOLAY_PLACES: usize = 23;

// Messages of those rows whose words have no place in common.
const GOLAY_GROUP: [u64; 3] = [1, 116, 3072];

// Readings of work memory, enough for every search here.
const WORK: usize = 2048;

// The Golay code as a card: three words without a common place as the group, eight rows, and what is left as coset rows.
// Each section leaves out the rows that it refuses: those beyond eight, and those that depend on rows already there.
// The case programs do the like with other refusals; a library for it would be no plainer.
fn golay_card() -> Result<FinishedCard, Refusal> {
    let rows: [u64; 12] = array::from_fn(|shift| GOLAY.wrapping_shl(shift as u32));
    let mut group = GroupCard::new(WordLength::new(GOLAY_PLACES)?);
    for message in GOLAY_GROUP {
        group.add_row(word_of(&rows, message))?;
    }
    let mut transform = group.close_group();
    for row in rows {
        let _ = transform.add_row(row);
    }
    let mut coset = transform.close_transform();
    for row in rows {
        let _ = coset.add_row(row);
    }
    Ok(coset.finish())
}

// A card of 24 places with a row for each place; `card_text_cases` has another full card, and a library for the two would be no plainer.
fn full_card() -> Result<FinishedCard, Refusal> {
    let mut group = GroupCard::new(WordLength::new(24)?);
    (0..8u32).try_for_each(|place| group.add_row(1 << place))?;
    let mut transform = group.close_group();
    (8..16u32).try_for_each(|place| transform.add_row(1 << place))?;
    let mut coset = transform.close_transform();
    (16..24u32).try_for_each(|place| coset.add_row(1 << place))?;
    Ok(coset.finish())
}

// Searches the word with a finder and prints what it finds.
fn search<F: Finder>(
    rt: &HostRuntime,
    name: &str,
    finder: &F,
    word: &mut [Level],
    work: &mut [Level],
) -> io::Result<()> {
    let need = finder.need();
    match finder.search(word, work) {
        Ok(found) => println!(rt;
            "  {name}: message {} with agreement {}, in {need} readings of work memory",
            found.message, found.reading
        ),
        Err(refusal) => println!(rt; "  {name}: the word is {}.", Numbered(refusal)),
    }
}

// Searches the word with each finder of the card.
fn search_all(
    rt: &HostRuntime,
    card: &FinishedCard,
    word: &mut [Level],
    work: &mut [Level],
) -> io::Result<()> {
    let plain = card_finder::<PlainFinder>(card);
    let group = card_finder::<GroupFinder>(card);
    let rows = group.row_count();
    println!(rt; "Searched over the {rows} rows of the card:")?;
    search(rt, "plain finder under coset layers", &plain, word, work)?;
    search(rt, "group finder under coset layers", &group, word, work)?;
    let rest = PlainFinder::new(card).row_count();
    println!(rt; "Searched over the first {rest} rows alone, without the coset rows:")?;
    search(rt, "plain finder", &PlainFinder::new(card), word, work)?;
    search(rt, "group finder", &GroupFinder::new(card), word, work)
}

// The readings of a word of the Golay code: strong and weak, three of the wrong sign, two lost.
fn worn(word: u64) -> [Level; 23] {
    let mut strength = 300u32;
    array::from_fn(|place| {
        strength = strength.wrapping_mul(7).wrapping_add(111) % 900;
        let value = match place {
            2 | 9 | 17 => -90,
            5 | 20 => 0,
            _ => 100 + strength as i32,
        };
        let is_one = word.wrapping_shr(place as u32) & 1 == 1;
        Level {
            value: if is_one { -value } else { value },
        }
    })
}

fn golay(rt: &HostRuntime, work: &mut [Level]) -> anyhow::Result<()> {
    println!(rt; "\n== The Golay code of 23 places and 12 rows ==")?;
    let card = golay_card()?;
    let word = card.encode(3026)?;
    println!(rt;
        "Message 3026 is recorded. Places 2, 9 and 17 read the wrong way, places 5 and 20 dropped out:"
    )?;
    let mut readings = worn(word);
    println!(rt; " {}", Spaced(&readings))?;
    Ok(search_all(rt, &card, &mut readings, work)?)
}

// Words and rows that finders turn down.
fn refused(rt: &HostRuntime, card: &FinishedCard, work: &mut [Level]) -> anyhow::Result<()> {
    println!(rt; "What the finders turn down:")?;
    let plain = card_finder::<PlainFinder>(card);
    search(
        rt,
        "four readings",
        &plain,
        &mut [Level { value: 1 }; 4],
        work,
    )?;
    let mut loud = [Level { value: 1 }; PLACES];
    loud[3] = Level { value: 1048577 };
    search(rt, "a reading of 2^20 + 1", &plain, &mut loud, work)?;
    search(
        rt,
        "no work memory",
        &plain,
        &mut [Level { value: 1 }; PLACES],
        &mut [],
    )?;
    let mut layer = CosetLayer::new(PlainFinder::new(card));
    for _ in 0..4 {
        layer.add_row(1)?;
    }
    if let Err(refusal) = layer.add_row(1) {
        println!(rt; "  A fifth row of a layer is {}.", Numbered(refusal))?;
    }
    let full = full_card()?;
    if let Err(refusal) = CosetLayer::new(card_finder::<PlainFinder>(&full)).add_row(1) {
        println!(rt; "  A row above 24 is {}.", Numbered(refusal))?;
    }
    Ok(())
}

// Searches with every finder on code E and on the Golay code.
pub(crate) fn finders(rt: &HostRuntime, card: &FinishedCard) -> anyhow::Result<()> {
    let mut work = vec![in rt.alloc(); Level { value: 0 }; WORK]?;
    println!(rt; "\n== Three finders on code E ==")?;
    let word = [620, 910, -480, -130, -770];
    println!(rt; "The strip of message 11 again:")?;
    println!(rt; " {}", Spaced(&word))?;
    let mut readings = word.map(|value| Level { value });
    search_all(rt, card, &mut readings, &mut work)?;
    refused(rt, card, &mut work)?;
    golay(rt, &mut work)
}

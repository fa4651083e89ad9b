ghost use Rattle.std.specs.Prelude.{◌^◌, ◌≤◌};
ghost use Rattle.std.specs.List.{AllByRecursion};

use crate::show::show_message;
use crate::{PLACES, ROWS};
use card::states::GroupCard;
use code::length::WordLength;
use code::refusal::{Numbered, Refusal};
use code::spaced::Spaced;
use finder::Finder;
use finder::fold::{columns, fold};
use finder::plain::PlainFinder;
use hadamard::transform;
use reading::Reading;
use reading::level::Level;
use reading::two_head::TwoHead;
use std::fmt::Display;
use std::io;

// The label of a digit played at full level.
const FULL_LABEL: i32 = 1024;

// The number of messages of the code.
const MESSAGES: usize = 16;

// A plain finder of all four rows of the code, so that the section of row 3 is another than elsewhere.
fn plain_finder() -> Result<PlainFinder, Refusal> {
    let mut group = GroupCard::new(WordLength::new(PLACES)?);
    group.add_row(ROWS[0])?;
    group.add_row(ROWS[1])?;
    let mut transform = group.close_group();
    transform.add_row(ROWS[2])?;
    transform.add_row(ROWS[3])?;
    Ok(PlainFinder::new(&transform.close_transform().finish()))
}

// The reading of two labels, each brought within full level.
fn read<R: Reading>(main: i32, second: i32) -> R
    ensures { R.Reading.size result ≤ 2 ^ 10 }
{
    R::make(
        main.clamp(-FULL_LABEL, FULL_LABEL),
        second.clamp(-FULL_LABEL, FULL_LABEL),
    )
}

// Readings of the main head's labels and the second's.
fn play<R: Reading>(labels: [(i32, i32); 5]) -> [R; 5]
    ensures { AllByRecursion (λ x. R.Reading.size x ≤ 2 ^ 10) result }
{
    labels.map(|(main, second)| read(main, second))
}

// Prints the word, the list that it folds into and the transform of that list.
fn show_stages<R: Reading + Display>(
    rt: &HostRuntime,
    length: WordLength,
    word: &[R],
    list: &mut [R],
) -> anyhow::Result<()> {
    println!(rt; "The worn strip reads, place by place:")?;
    println!(rt; " {}", Spaced(word))?;
    fold(word, length, &columns(&ROWS, length), MESSAGES, list)?;
    println!(rt; "Folded by column into a list of 16, entry 0 first:")?;
    println!(rt; " {}", Spaced(list))?;
    transform(list)?;
    println!(rt; "Transformed: entry m is now the agreement of message m:")?;
    println!(rt; " {}", Spaced(list))?;
    Ok(())
}

// Decodes a word and prints each stage.
fn decode<R: Reading + Display>(
    rt: &HostRuntime,
    word: &mut [R],
    list: &mut [R],
) -> anyhow::Result<()> {
    let plain = plain_finder()?;
    show_stages(rt, plain.length(), word, list)?;
    let found = plain.search(word, list)?;
    let message = found.message;
    println!(rt;
        "The first of the largest entries is entry {message}: message {message} is found, with agreement {}.",
        found.reading
    )?;
    Ok(())
}

pub(crate) fn one_head(rt: &HostRuntime) -> anyhow::Result<()> {
    println!(rt; "\n== One head: a digit that reads the wrong way ==")?;
    show_message(rt, 11)?;
    let mut word = play::<Level>([620, 910, -480, -130, -770].map(|main| (main, 0)));
    let mut list = [Level { value: 0 }; MESSAGES];
    decode(rt, &mut word, &mut list)?;
    println!(rt; "Place 3 was played as 0 and reads as a weak 1; the other places outvote it.")?;
    Ok(())
}

pub(crate) fn two_heads(rt: &HostRuntime) -> anyhow::Result<()> {
    println!(rt; "\n== Two heads: the second head decides between equals ==")?;
    show_message(rt, 12)?;
    println!(rt; "Each reading is a pair: main head, second head.")?;
    let mut word = play::<TwoHead>([(130, -40), (910, 0), (-480, 0), (-130, 0), (-770, 0)]);
    let mut list = [TwoHead { main: 0, second: 0 }; MESSAGES];
    decode(rt, &mut word, &mut list)?;
    println!(rt; "The same strip with the main head alone:")?;
    let mut alone = play::<Level>([130, 910, -480, -130, -770].map(|main| (main, 0)));
    let mut levels = [Level { value: 0 }; MESSAGES];
    decode(rt, &mut alone, &mut levels)?;
    println!(rt;
        "Messages 11 and 12 agree equally well there, and of equals the smallest is taken."
    )?;
    Ok(())
}

// Lists that the transform turns down.
pub(crate) fn refusals(rt: &HostRuntime) -> io::Result<()> {
    println!(rt; "\n== What is turned down changes nothing ==")?;
    let mut list = [Level { value: 7 }; 3];
    if let Err(refusal) = transform(&mut list) {
        println!(rt; "A list of three is {}.", Numbered(refusal))?;
    }
    let mut large = [Level { value: 268435456 }, Level { value: -1 }];
    if let Err(refusal) = transform(&mut large) {
        println!(rt; "A list of 268435456 and -1 is {}.", Numbered(refusal))?;
    }
    println!(rt; " {}", Spaced(&list))?;
    println!(rt; " {}", Spaced(&large))
}

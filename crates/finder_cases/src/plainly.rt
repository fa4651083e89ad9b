// A plain search over all messages.
use crate::compare::Weighed;
use code::words::word_of;
use std::cmp::Ordering;

// The smallest message of greatest agreement, that agreement, and how many messages have it.
#[derive(Clone, Copy)]
pub struct Due {
    pub message: u32,
    pub agreement: i64,
    pub equals: u32,
}

// The agreement of a code word with readings. It is written apart from what the library computes, which it checks.
fn agreement<R: Weighed>(word: u64, readings: &[R]) -> i64 {
    (0..64).zip(readings).fold(0i64, |sum, (place, reading)| {
        let weight = reading.weighed();
        if word.wrapping_shr(place) % 2 == 1 {
            sum.wrapping_sub(weight)
        } else {
            sum.wrapping_add(weight)
        }
    })
}

pub(crate) fn search_all<R: Weighed>(rows: &[u64], readings: &[R]) -> Due {
    let mut due = Due {
        message: 0,
        agreement: agreement(0, readings),
        equals: 1,
    };
    for message in 1..1u32 << (rows.len() % 32) {
        let found = agreement(word_of(rows, u64::from(message)), readings);
        match found.cmp(&due.agreement) {
            Ordering::Greater => {
                due = Due {
                    message,
                    agreement: found,
                    equals: 1,
                };
            }
            Ordering::Equal => due.equals = due.equals.wrapping_add(1),
            Ordering::Less => {}
        }
    }
    due
}

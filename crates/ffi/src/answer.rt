ghost use Rattle.ffi.specs.Batch.{IsAnswerTo};

use code::refusal::Refusal;
use finder::found::Found;
use reading::level::Level;

// The answer to one word: refusal 0 with a message and its agreement, or the refusal's number with 0 and 0.
// A refusal is a number here, since C reads the answers.
#[repr(C)]
#[derive(Clone, Copy)]
pub struct Answer {
    pub refusal: u32,
    pub message: u32,
    pub agreement: i32,
}

impl From<Result<Found<Level>, Refusal>> for Answer {
    ghost from_gives = { IsAnswerTo };

    fn from(searched: Result<Found<Level>, Refusal>) -> Answer {
        match searched {
            Ok(found) => Answer {
                refusal: 0,
                message: found.message,
                agreement: found.reading.value,
            },
            Err(refusal) => Answer {
                refusal: refusal.number() as u32,
                message: 0,
                agreement: 0,
            },
        }
    }
}

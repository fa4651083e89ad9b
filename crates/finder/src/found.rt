ghost use Rattle.std.specs.Prelude.{◌≡◌, if◌then◌else◌, int_lt};

use reading::Reading;

// What a search finds: the message and a reading that weighs its agreement.
#[derive(Clone, Copy, PartialEq, Eq, Debug)]
pub struct Found<R> {
    pub message: u32,
    pub reading: R,
}

impl<R: Reading> Found<R> {
    // The other where it weighs more, else this one.
    pub fn or_heavier(self, other: Found<R>) -> Found<R>
        ensures { result ≡ (if int_lt (R.Reading.weight self.reading) (R.Reading.weight other.reading) then other else self) }
    {
        if self.reading.below(other.reading) {
            other
        } else {
            self
        }
    }
}

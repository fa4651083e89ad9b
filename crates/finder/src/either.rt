ghost use Rattle.finder.specs.Sides.{of_side};
ghost use Rattle.std.proofs.Common.{rules};

use crate::Finder;
use crate::found::Found;
use code::length::WordLength;
use code::refusal::Refusal;
use reading::Reading;

// One of two finders, and itself a finder. The kit has such a type in its crate `either`, with other names for the variants, which callers match on.
#[derive(Clone, Copy)]
pub enum Either<A, B> {
    First(A),
    Second(B),
}

impl<A: Finder, B: Finder> Finder for Either<A, B> {
    ghost meaning = { of_side A.Finder.meaning B.Finder.meaning };

    ghost lawful = { Prim.search rules };

    fn length(&self) -> WordLength {
        match self {
            Either::First(a) => a.length(),
            Either::Second(b) => b.length(),
        }
    }

    fn row_count(&self) -> usize {
        match self {
            Either::First(a) => a.row_count(),
            Either::Second(b) => b.row_count(),
        }
    }

    fn row(&self, j: usize) -> Option<u64> {
        match self {
            Either::First(a) => a.row(j),
            Either::Second(b) => b.row(j),
        }
    }

    fn need(&self) -> usize {
        match self {
            Either::First(a) => a.need(),
            Either::Second(b) => b.need(),
        }
    }

    fn search<R: Reading>(&self, word: &mut [R], work: &mut [R]) -> Result<Found<R>, Refusal> {
        match self {
            Either::First(a) => a.search(word, work),
            Either::Second(b) => b.search(word, work),
        }
    }
}

#![tactic(auto)]

mod cells;
pub mod run;

ghost use Rattle.std.specs.Prelude.{◌≡◌, [], length, drop};
ghost use Rattle.code.specs.Limits.{max_places};
ghost use Rattle.sheet.specs.Stands.{Stands, PassLaw, StrikeLaw, ClearLaw, SearchLaw, BothLaw, cells_of, front};

use crate::cells::{add_pass, blank, covering, lay_out};
use code::refusal::Refusal;
use finder::Finder;
use finder::found::Found;
use reading::Reading;
use sample::Sample;

// A sheet over lent cells, of which it covers the first 64, or all where fewer, and the number of passes it has taken.
#[derive(Drop)]
pub struct Sheet<'a, R> {
    cells: &'a mut [R],
    passes: u32,
}

// Each public call hands on to a private one of the same contract: it then needs no proof file, and a must-fail edit in it is refused by a fact.
impl<'a, R: Reading> Sheet<'a, R> {
    // Lays out a sheet over the cells: each covered one is set to the reading made from 0 and 0, and there are no passes.
    pub fn new(cells: &'a mut [R]) -> Self
        ensures stands { Stands R.Reading [] result }
        ensures long { length (cells_of result) ≡ length cells.old }
        ensures beyond { drop max_places (cells_of result) ≡ drop max_places cells.old }
        ensures named { result.cells.ghost_name ≡ cells.entry.ghost_name }
    {
        let mut sheet = Sheet { cells, passes: 0 };
        sheet.clear();
        sheet
    }

    // The number of passes taken since the sheet was laid out.
    pub fn passes(&self) -> u32
        ensures { result ≡ self.now.passes }
    {
        let Sheet { passes, .. } = self;
        *passes
    }

    // The covered cells.
    pub fn covered(&self) -> &[R]
        ensures { result.now ≡ front self.now }
    {
        self.front_cells()
    }

    fn front_cells(&self) -> &[R]
        ensures { result.now ≡ front self.now }
    {
        let n = covering(self.cells.len());
        &self.cells[0..n]
    }

    // Takes a pass: adds to each cell the reading made from its sample, and answers the new pass count.
    // The pass is checked whole before anything is added.
    pub fn pass(&mut self, samples: &[Sample]) -> Result<u32, Refusal>
        ensures { PassLaw R.Reading self.old self.new samples.now result }
    {
        self.pass_covered(samples)
    }

    fn pass_covered(&mut self, samples: &[Sample]) -> Result<u32, Refusal>
        ensures { PassLaw R.Reading self.old self.new samples.now result }
    {
        let n = covering(self.cells.len());
        self.passes = add_pass(&mut self.cells[0..n], self.passes, samples)?;
        Ok(self.passes)
    }

    // Strikes one cell: sets it to the reading made from 0 and 0.
    pub fn strike(&mut self, place: usize) -> Result<(), Refusal>
        ensures { StrikeLaw R.Reading self.old self.new place result }
    {
        self.strike_covered(place)
    }

    fn strike_covered(&mut self, place: usize) -> Result<(), Refusal>
        ensures { StrikeLaw R.Reading self.old self.new place result }
    {
        if place >= covering(self.cells.len()) {
            return Err(Refusal::PlaceOffSheet { place });
        }
        self.cells[place] = blank();
        Ok(())
    }

    // Lays the sheet out anew.
    pub fn clear(&mut self)
        ensures { ClearLaw R.Reading self.old self.new }
    {
        self.clear_covered();
    }

    fn clear_covered(&mut self)
        ensures { ClearLaw R.Reading self.old self.new }
    {
        let n = covering(self.cells.len());
        lay_out(&mut self.cells[0..n]);
        self.passes = 0;
    }

    // Hands the covered cells to a finder. The sheet is the same afterwards.
    pub fn search<F: Finder>(&mut self, finder: &F, work: &mut [R]) -> Result<Found<R>, Refusal>
        ensures { SearchLaw R.Reading self.old self.new (F.Finder.meaning finder.now) work.old work.new result }
    {
        self.search_covered(finder, work)
    }

    fn search_covered<F: Finder>(&mut self, finder: &F, work: &mut [R]) -> Result<Found<R>, Refusal>
        ensures { SearchLaw R.Reading self.old self.new (F.Finder.meaning finder.now) work.old work.new result }
    {
        let n = covering(self.cells.len());
        finder.search(&mut self.cells[0..n], work)
    }

    // Searches with one finder and then with another, in the same work memory; answers what each answers.
    // Where both find and have the same rows in the same order, they find the same message and the same weight.
    pub fn search_both<A: Finder, B: Finder>(
        &mut self,
        a: &A,
        b: &B,
        work: &mut [R],
    ) -> (Result<Found<R>, Refusal>, Result<Found<R>, Refusal>)
        ensures { BothLaw R.Reading self.old self.new (A.Finder.meaning a.now) (B.Finder.meaning b.now) work.old work.new result.0 result.1 }
    {
        self.search_twice(a, b, work)
    }

    fn search_twice<A: Finder, B: Finder>(
        &mut self,
        a: &A,
        b: &B,
        work: &mut [R],
    ) -> (Result<Found<R>, Refusal>, Result<Found<R>, Refusal>)
        ensures { BothLaw R.Reading self.old self.new (A.Finder.meaning a.now) (B.Finder.meaning b.now) work.old work.new result.0 result.1 }
    {
        let first = self.search_covered(a, work);
        let second = self.search_covered(b, work);
        (first, second)
    }
}

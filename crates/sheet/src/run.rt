ghost use Rattle.std.specs.Prelude.{◌≡◌, ◌<◌, ◌≤◌, length, drop, Err, MatchResult, OnErr};
ghost use Rattle.code.specs.declared.refusal.Refusal.TheVariants.{OutputShort};
ghost use Rattle.sheet.specs.Stands.{Kept, StrikeLaw};
ghost use Rattle.sheet.specs.Runs.{ByName, Served, RanFrom, RanOver};

use crate::Sheet;
use code::refusal::Refusal;
use finder::Finder;
use finder::found::Found;
use reading::Reading;
use sample::Sample;

// A call of a sheet with its arguments.
#[derive(Drop)]
pub enum Request<'a, F> {
    Pass(&'a [Sample]),
    Strike(usize),
    Clear,
    Search(&'a F),
}

// What a request is answered.
#[derive(Clone, Copy)]
pub enum Answer<R> {
    Passed(Result<u32, Refusal>),
    Struck(Result<(), Refusal>),
    Cleared,
    Searched(Result<Found<R>, Refusal>),
}

impl<'a, R: Reading> Sheet<'a, R> {
    // Makes one request of the sheet.
    pub fn serve<F: Finder>(&mut self, request: &Request<F>, work: &mut [R]) -> Answer<R>
        ensures { Served R.Reading F.Finder.meaning (length work.old) self.old self.new request.now work.old work.new result }
    {
        self.serve_lent(request, work)
    }

    // The public call needs no proof file so, and a must-fail edit in it is refused by a fact.
    fn serve_lent<F: Finder>(&mut self, request: &Request<F>, work: &mut [R]) -> Answer<R>
        ensures { Served R.Reading F.Finder.meaning (length work.old) self.old self.new request.now work.old work.new result }
    {
        self.serve_by(request, &|finder| finder, work)
    }

    // Makes one request of the sheet, a search by the finder that `finder_of` gives for what the request names.
    fn serve_by<'f, N: 'f, F: Finder + 'f, L: Fn(&'f N) -> &'f F>(
        &mut self,
        request: &Request<'f, N>,
        finder_of: &L,
        work: &mut [R],
    ) -> Answer<R>
        requires { L.IsAlwaysCallable finder_of.now }
        ensures law { ByName L.Fn finder_of.now F.Finder.meaning (λ by. Served R.Reading by (length work.old) self.old self.new request.now work.old work.new result) }
        ensures kept { Kept self.old self.new }
    {
        match request {
            Request::Pass(samples) => Answer::Passed(self.pass(samples)),
            Request::Strike(place) => Answer::Struck(self.strike_at(place)),
            Request::Clear => {
                self.clear();
                Answer::Cleared
            }
            Request::Search(name) => Answer::Searched(self.search(finder_of(name), work)),
        }
    }

    // Strikes the place that a request names: a function of its own, since `serve_by` has a proof file and a must-fail edit stands here.
    fn strike_at(&mut self, place: &usize) -> Result<(), Refusal>
        ensures { StrikeLaw R.Reading self.old self.new place.now result }
    {
        self.strike(*place)
    }

    // Makes the requests in order and writes the answers out.
    fn run<'f, N: 'f, F: Finder + 'f, L: Fn(&'f N) -> &'f F>(
        &mut self,
        requests: &[Request<'f, N>],
        finder_of: L,
        work: &mut [R],
        answers: &mut [Answer<R>],
    )
        requires room { length requests.now ≤ length answers.old }
        requires callable { L.IsAlwaysCallable finder_of }
        ensures law { ByName L.Fn finder_of F.Finder.meaning (λ by. RanFrom R.Reading by requests.now (length requests.now) self.old self.new work.old work.new answers.new) }
        ensures kept { Kept self.old self.new }
        ensures rest { drop (length requests.now) answers.new ≡ drop (length requests.now) answers.old }
    {
        // After `answers.iter_mut().zip(requests)` a proof knows no answer.
        for (i, request) in requests.iter().enumerate() {
            answers[i] = self.serve_by(request, &finder_of, work);
        }
    }
}

// Lays out a sheet over the cells and makes the requests of it; answers the pass count.
fn run_laid_out<'f, R: Reading, N: 'f, F: Finder + 'f, L: Fn(&'f N) -> &'f F>(
    cells: &mut [R],
    requests: &[Request<'f, N>],
    finder_of: L,
    work: &mut [R],
    answers: &mut [Answer<R>],
) -> u32
    requires room { length requests.now ≤ length answers.old }
    requires callable { L.IsAlwaysCallable finder_of }
    ensures { ByName L.Fn finder_of F.Finder.meaning (λ by. RanOver R.Reading by requests.now result cells.old cells.new work.old work.new answers.old answers.new) }
{
    let mut sheet = Sheet::new(cells);
    sheet.run(requests, finder_of, work, answers);
    sheet.passes
}

// The memory for cells, work and answers is lent to each call by itself: in a struct, each would be a loan with a fact of its own. The clauses that
// a refusal leaves it are of the call, and no fact of a value.

// Lays out a sheet over the cells, makes the requests of it in order, each search by the finder that `finder_of` gives for what the request names,
// and writes an answer to each; answers the pass count. Its contract is the law of runs. Where the memory for the answers is too short, nothing is done.
pub fn run_over_by<'f, R: Reading, N: 'f, F: Finder + 'f, L: Fn(&'f N) -> &'f F>(
    cells: &mut [R],
    requests: &[Request<'f, N>],
    finder_of: L,
    work: &mut [R],
    answers: &mut [Answer<R>],
) -> Result<u32, Refusal>
    requires { L.IsAlwaysCallable finder_of }
    ensures short { OnErr result (result ≡ Err OutputShort) }
    ensures law { ByName L.Fn finder_of F.Finder.meaning (λ by. MatchResult result
        (λ count. RanOver R.Reading by requests.now count cells.old cells.new work.old work.new answers.old answers.new)
        (λ e. (e ≡ OutputShort) × (length answers.old < length requests.now))) }
    ensures refused { MatchResult result (λ _. length requests.now ≤ length answers.old) (λ _. (cells.new ≡ cells.old) × (work.new ≡ work.old) × (answers.new ≡ answers.old)) }
{
    if answers.len() < requests.len() {
        return Err(Refusal::OutputShort);
    }
    Ok(run_laid_out(cells, requests, finder_of, work, answers))
}

// The same where each request lends its finder.
pub fn run_over<R: Reading, F: Finder>(
    cells: &mut [R],
    requests: &[Request<F>],
    work: &mut [R],
    answers: &mut [Answer<R>],
) -> Result<u32, Refusal>
    ensures law { MatchResult result
        (λ count. RanOver R.Reading F.Finder.meaning requests.now count cells.old cells.new work.old work.new answers.old answers.new)
        (λ e. (e ≡ OutputShort) × (length answers.old < length requests.now)) }
    ensures refused { MatchResult result (λ _. length requests.now ≤ length answers.old) (λ _. (cells.new ≡ cells.old) × (work.new ≡ work.old) × (answers.new ≡ answers.old)) }
{
    run_over_lent(cells, requests, work, answers)
}

// The public call needs no proof file so, and a must-fail edit in it is refused by a fact.
fn run_over_lent<R: Reading, F: Finder>(
    cells: &mut [R],
    requests: &[Request<F>],
    work: &mut [R],
    answers: &mut [Answer<R>],
) -> Result<u32, Refusal>
    ensures law { MatchResult result
        (λ count. RanOver R.Reading F.Finder.meaning requests.now count cells.old cells.new work.old work.new answers.old answers.new)
        (λ e. (e ≡ OutputShort) × (length answers.old < length requests.now)) }
    ensures refused { MatchResult result (λ _. length requests.now ≤ length answers.old) (λ _. (cells.new ≡ cells.old) × (work.new ≡ work.old) × (answers.new ≡ answers.old)) }
{
    run_over_by(cells, requests, |finder| finder, work, answers)
}

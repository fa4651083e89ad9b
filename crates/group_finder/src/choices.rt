ghost use Rattle.std.specs.Prelude.{◌≡◌, ℕ, ◌+◌, ◌*◌, ◌^◌, ◌<◌, ◌≤◌, ◌⊎◌, max, min, length, ◌+ℤ◌, ◌<ℤ◌, neg_ℤ, true, false};
ghost use Rattle.card.specs.Cards.{max_section_rows};
ghost use Rattle.code.specs.Limits.{sum_limit};
ghost use Rattle.code.specs.Words.{Top};
ghost use Rattle.hadamard.specs.Transform.{size_at, weight_at};
ghost use Rattle.group_finder.specs.Choices.{BestBefore, BestKept, Extended, KeptByParity, choice_value, group_value, totalled};

use finder::found::Found;
use reading::Reading;

// What is kept of a message: all of it in a `u32`, nothing in `()`, with which the walk takes half the time.
trait Message: Copy {
    // Whether this may be what is kept of the number.
    ghost keeps: { Self → ℕ → Type 0 };

    fn of(number: u32) -> Self
        ensures { keeps result number };

    // The message with a digit 1 more.
    fn plus(self, bit: u32) -> Self
        requires { (n : ℕ) × (keeps self n × (n + bit < 2 ^ 32)) }
        ensures { (n : ℕ) → keeps self n → keeps result (n + bit) };

    // Whether this message is the smaller one; either may be, where nothing is kept.
    fn precedes(self, other: Self) -> bool
        ensures yes { (m n : ℕ) → keeps self m → keeps other n → result ≡ true → keeps self (min m n) }
        ensures no { (m n : ℕ) → keeps self m → keeps other n → result ≡ false → keeps other (min m n) };
}

impl Message for u32 {
    ghost keeps = { λ m n. n ≡ m };

    fn of(number: u32) -> u32 {
        number
    }

    fn plus(self, bit: u32) -> u32 {
        self + bit
    }

    fn precedes(self, other: u32) -> bool {
        self < other
    }
}

impl Message for () {
    ghost keeps = { λ _ _. Unit {0} };

    fn of(_number: u32) {}

    fn plus(self, _bit: u32) {}

    fn precedes(self, _other: ()) -> bool {
        true
    }
}

// A choice of group rows: what is kept of its message, and a reading of what it gets. `Found` of `finder` always keeps the message.
#[derive(Clone, Copy)]
struct Choice<M, R> {
    message: M,
    reading: R,
}

// The sum of `a` and `s`, and the difference of `b` and `s`. `butterfly` of `hadamard`, which is this for one left side, would be no plainer for calling it.
fn plus_minus<R: Reading>(a: R, b: R, s: R) -> (R, R)
    requires { (R.Reading.size a + R.Reading.size s ≤ sum_limit) × (R.Reading.size b + R.Reading.size s ≤ sum_limit) }
    ensures sum { R.Reading.weight result.0 ≡ R.Reading.weight a +ℤ R.Reading.weight s }
    ensures difference { R.Reading.weight result.1 ≡ R.Reading.weight b +ℤ neg_ℤ (R.Reading.weight s) }
    ensures sum_size { R.Reading.size result.0 ≤ R.Reading.size a + R.Reading.size s }
    ensures difference_size { R.Reading.size result.1 ≤ R.Reading.size b + R.Reading.size s }
{
    let sum = a.add(s);
    let difference = b.add(s.negate());
    (sum, difference)
}

// The better of `a` with the reading added and `b` with it taken away and the bit set, the first on a tie.
fn extend<M: Message, R: Reading>(a: Choice<M, R>, b: Choice<M, R>, s: R, bit: u32) -> Choice<M, R>
    requires size { max (R.Reading.size a.reading) (R.Reading.size b.reading) + R.Reading.size s ≤ sum_limit }
    requires fits { (n : ℕ) × (M.Message.keeps b.message n × (n + bit < 2 ^ 32)) }
    ensures { (m n : ℕ) → M.Message.keeps a.message m → M.Message.keeps b.message n
        → (k : ℕ) × (M.Message.keeps result.message k × Extended R.Reading m a.reading n b.reading s bit k result.reading) }
{
    let (up, down) = plus_minus(a.reading, b.reading, s);
    if up.below(down) {
        Choice {
            message: b.message.plus(bit),
            reading: down,
        }
    } else {
        Choice {
            message: a.message,
            reading: up,
        }
    }
}

// The better of two, the smaller message on a tie.
fn better<M: Message, R: Reading>(a: Choice<M, R>, b: Choice<M, R>) -> Choice<M, R>
    ensures second { R.Reading.weight a.reading <ℤ R.Reading.weight b.reading → result ≡ b }
    ensures first { R.Reading.weight b.reading <ℤ R.Reading.weight a.reading → result ≡ a }
    ensures tie { R.Reading.weight a.reading ≡ R.Reading.weight b.reading → R.Reading.weight result.reading ≡ R.Reading.weight a.reading }
    ensures smaller { R.Reading.weight a.reading ≡ R.Reading.weight b.reading → (m n : ℕ) → M.Message.keeps a.message m → M.Message.keeps b.message n → M.Message.keeps result.message (min m n) }
    ensures sized { R.Reading.size result.reading ≤ max (R.Reading.size a.reading) (R.Reading.size b.reading) }
    ensures one { (result ≡ a) ⊎ (result ≡ b) }
{
    if a.reading.below(b.reading) {
        return b;
    }
    if b.reading.below(a.reading) {
        return a;
    }
    if a.message.precedes(b.message) { a } else { b }
}

// The transformed lists, one after the other, each of `span` readings: of no group digit, of each of `count` group rows alone, and of all of them.
#[derive(Drop)]
pub(crate) struct Lists<'a, R: Reading> {
    pub(crate) readings: &'a [R],
    pub(crate) span: usize,
    pub(crate) count: usize,
    ghost few: { (count ≤ max_section_rows) × (1 ≤ span) × (span ≤ 2 ^ max_section_rows) },
    ghost long: { length readings.now ≡ (count + 2) * span },
    ghost small: { (t : ℕ) → t < span → totalled (count + 2) (λ q. size_at R.Reading.size readings.now (q * span + t)) ≤ sum_limit },
}

impl<'a, R: Reading> Lists<'a, R> {
    // Reading t of list q.
    #[inline]
    fn at(&self, q: usize, t: usize) -> R
        requires { (q < self.now.count + 2) × (t < self.now.span) }
        ensures weighs { R.Reading.weight result ≡ weight_at R.Reading.weight self.now.readings.now (q * self.now.span + t) }
        ensures sized { R.Reading.size result ≡ size_at R.Reading.size self.now.readings.now (q * self.now.span + t) }
    {
        self.readings[q * self.span + t]
    }

    // The best choices of the group rows of even and of odd number, for the choice t of the others.
    // A loop by number: j is the list's number and the place of the row's digit.
    fn by_parity<M: Message>(&self, t: usize) -> (Choice<M, R>, Choice<M, R>)
        requires { (1 ≤ self.now.count) × (t < self.now.span) }
        ensures { KeptByParity M.Message.keeps R.Reading
            (λ i. weight_at R.Reading.weight self.now.readings.now ((i + 1) * self.now.span + t)) (λ i. size_at R.Reading.size self.now.readings.now ((i + 1) * self.now.span + t))
            self.now.count result.0.message result.0.reading result.1.message result.1.reading }
    {
        let first = self.at(1, t);
        let mut even = Choice {
            message: M::of(0),
            reading: first,
        };
        let mut odd = Choice {
            message: M::of(1),
            reading: first.negate(),
        };
        for j in 1..self.count {
            let s = self.at(j + 1, t);
            let bit = 1u32 << j;
            let next = extend(even, odd, s, bit);
            odd = extend(odd, even, s, bit);
            even = next;
        }
        (even, odd)
    }

    // The best choice of the group rows for the choice t of the others.
    fn best_at<M: Message>(&self, t: usize) -> Choice<M, R>
        requires { t < self.now.span }
        ensures { BestKept M.Message.keeps (choice_value (λ q. weight_at R.Reading.weight self.now.readings.now (q * self.now.span + t)) self.now.count) (2 ^ self.now.count) result.message (R.Reading.weight result.reading) }
    {
        let rest = self.at(0, t);
        let all = self.at(self.count + 1, t);
        if self.count == 0 {
            return Choice {
                message: M::of(0),
                reading: rest.add(all),
            };
        }
        let (even, odd) = self.by_parity(t);
        let (up, down) = plus_minus(even.reading, odd.reading, all);
        let first = Choice {
            message: even.message,
            reading: up,
        };
        let second = Choice {
            message: odd.message,
            reading: down,
        };
        let best: Choice<M, R> = better(first, second);
        Choice {
            message: best.message,
            reading: rest.add(best.reading),
        }
    }

    // The best so far, or the best for the choice t of the other rows where that is better: its message is sought only there.
    fn or_better_at(&self, best: Found<R>, t: usize) -> Found<R>
        requires { t < self.now.span }
        ensures { BestBefore R.Reading.weight (weight_at R.Reading.weight self.now.readings.now) self.now.span self.now.count t best.message best.reading → BestBefore R.Reading.weight (weight_at R.Reading.weight self.now.readings.now) self.now.span self.now.count (t + 1) result.message result.reading }
    {
        let weight = self.best_at::<()>(t);
        if !best.reading.below(weight.reading) {
            return best;
        }
        let found = self.best_at::<u32>(t);
        Found {
            message: found.message + ((t as u32) << self.count),
            reading: found.reading,
        }
    }

    // The best message, and a reading that weighs what it gets.
    // A loop by number: t is the upper part of a message. Not inlined: a span that the compiler does not know as a power of two is added from list to list, not shifted anew.
    #[inline(never)]
    pub(crate) fn best(&self) -> Found<R>
        ensures top { Top (group_value (weight_at R.Reading.weight self.now.readings.now) self.now.span self.now.count) (self.now.span * 2 ^ self.now.count) result.message }
        ensures weighs { R.Reading.weight result.reading ≡ group_value (weight_at R.Reading.weight self.now.readings.now) self.now.span self.now.count result.message }
    {
        let first = self.best_at::<u32>(0);
        let mut best = Found {
            message: first.message,
            reading: first.reading,
        };
        for t in 1..self.span {
            best = self.or_better_at(best, t);
        }
        best
    }
}

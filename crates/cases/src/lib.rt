#![tactic(auto)]

ghost use Rattle.std.specs.Prelude.{◌≡◌};
ghost use Rattle.cases.specs.Worked.{Worked};

// The worked cases hold; answers how many there are.
pub fn worked_cases() -> u8
    ensures proved { Worked }
    ensures count { result ≡ 16 }
{
    all_cases()
}

// The public call needs no proof file so, and a must-fail edit in it is refused by a fact.
fn all_cases() -> u8
    ensures proved { Worked }
    ensures count { result ≡ 16 }
{
    16
}

#[cfg(test)]
mod tests {
    use code::length::WordLength;
    use code::limits::SUM_LIMIT;
    use code::refusal::{Layer, Refusal, Section};
    use code::words::word_of;
    use hadamard::transform;
    use reading::Reading;
    use reading::level::Level;
    use reading::two_head::TwoHead;
    use sample::level::label;
    use sample::{Pair, Sample, check_samples};

    // The number of a refused call, or 0.
    fn number<T: Drop>(r: Result<T, Refusal>) -> u8 {
        match r {
            Ok(_) => 0,
            Err(refusal) => refusal.number(),
        }
    }

    fn level(value: i32) -> Level {
        Level { value }
    }

    #[test]
    fn lengths(rt: HostRuntime) {
        assert!(rt; number(WordLength::new(0)) == 1);
        assert!(rt; number(WordLength::new(1)) == 0);
        assert!(rt; number(WordLength::new(64)) == 0);
        assert!(rt; number(WordLength::new(65)) == 1);
        assert!(rt; number(WordLength::new(usize::MAX)) == 1);
    }

    #[test]
    fn layers(rt: HostRuntime) {
        assert!(rt; Refusal::BytesLeftOver.layer() == Layer::Card);
        assert!(rt; Refusal::PassLengthDiffers.layer() == Layer::Deck);
        assert!(rt; Refusal::PlaceOffSheet { place: 9 }.layer() == Layer::Deck);
        assert!(rt; Refusal::WordLengthDiffers.layer() == Layer::Finder);
        assert!(rt; Refusal::MessageTooLarge.layer() == Layer::Finder);
        assert!(rt; Refusal::UnknownCommand.layer() == Layer::Console);
        assert!(rt;
            Refusal::SectionFull {
                section: Section::Coset,
            }
            .number()
                == 3
        );
    }

    #[test]
    fn words_of_code_e(rt: HostRuntime) {
        let rows = [3, 6, 12, 17];
        assert!(rt; word_of(&rows, 0) == 0);
        assert!(rt; word_of(&rows, 11) == 20);
        assert!(rt; word_of(&rows, 15) == 24);
        assert!(rt; word_of(&rows, 16) == 0);
        assert!(rt; word_of(&[], 7) == 0);
    }

    #[test]
    fn transform_of_four(rt: HostRuntime) {
        let mut list = [level(1), level(2), level(3), level(4)];
        assert!(rt; transform(&mut list).is_ok());
        assert!(rt; list == [level(10), level(-2), level(-4), level(0)]);
    }

    #[test]
    fn transform_twice(rt: HostRuntime) {
        let mut list = [level(0); 1024];
        let mut seed: u32 = 1;
        for x in list.iter_mut() {
            seed = seed.wrapping_mul(1103515245).wrapping_add(12345);
            *x = level((seed >> 16) as i32 % 201 - 100);
        }
        let old = list;
        assert!(rt; transform(&mut list).is_ok());
        assert!(rt; transform(&mut list).is_ok());
        for (twice, once) in list.iter().zip(&old) {
            assert!(rt; i64::from(twice.value) == 1024 * i64::from(once.value));
        }
    }

    #[test]
    fn refused_lists_stay(rt: HostRuntime) {
        let mut three = [level(1), level(2), level(3)];
        assert!(rt; number(transform(&mut three)) == 18);
        assert!(rt; three == [level(1), level(2), level(3)]);
        let mut none: [Level; 0] = [];
        assert!(rt; number(transform(&mut none)) == 18);
        let limit = SUM_LIMIT as i32;
        let mut large = [level(limit), level(-1)];
        assert!(rt; number(transform(&mut large)) == 19);
        assert!(rt; large == [level(limit), level(-1)]);
        let mut most = [level(limit), level(0)];
        assert!(rt; number(transform(&mut most)) == 0);
        assert!(rt; most[1].value == limit);
    }

    #[test]
    fn labels_of_levels(rt: HostRuntime) {
        let zero = 0.0f32;
        assert!(rt; label(0.5) == Some(512) && label(-0.5) == Some(-512));
        assert!(rt; label(0.0009765625) == Some(1) && label(0.00048828125) == Some(0));
        assert!(rt; label(-zero) == Some(0) && label(1.0) == Some(1024));
        assert!(rt; label(-1.0) == Some(-1024) && label(0.99999994) == Some(1023));
        assert!(rt; label(1.0000001) == None && label(zero / zero) == None);
        assert!(rt; label(1.0 / zero) == None && label(-1.0 / zero) == None);
    }

    #[test]
    fn first_bad_samples(rt: HostRuntime) {
        let good = Pair {
            main: 0.25,
            second: -1.0,
        };
        let bad = Pair {
            main: 0.25,
            second: 1.5,
        };
        assert!(rt;
            number(check_samples(&[Sample::Bit(1), Sample::Pair(good), Sample::Dropout])) == 0
        );
        assert!(rt;
            number(check_samples(&[Sample::Dropout, Sample::Bit(2), Sample::Level(2.0)])) == 10
        );
        assert!(rt; number(check_samples(&[Sample::Level(-1.5), Sample::Bit(2)])) == 11);
        assert!(rt; number(check_samples(&[Sample::Pair(good), Sample::Pair(bad)])) == 11);
        assert!(rt; number(check_samples(&[])) == 0);
    }

    #[test]
    fn two_heads_at_the_extremes(rt: HostRuntime) {
        let low = TwoHead {
            main: 0,
            second: i32::MIN,
        };
        let high = TwoHead {
            main: 0,
            second: i32::MAX,
        };
        let least = TwoHead {
            main: i32::MIN,
            second: i32::MAX,
        };
        let most = TwoHead {
            main: i32::MAX,
            second: i32::MIN,
        };
        assert!(rt; low.below(high) && !high.below(low) && !low.below(low));
        assert!(rt; least.below(low) && least.below(most) && !most.below(high));
        assert!(rt; least.size() == 2147483648 && high.size() == 2147483647);
    }
}

// Each layer by itself, and where its places end.
use crate::even::Even;
use reception::{Combined, Either, HardWord, LevelWord, Reception, Window, word_cost};

#[test]
fn hard_words(rt: HostRuntime) {
    let heard = HardWord::new(&[0, 3, 255]);
    assert_eq!(rt; heard.len(), 3);
    for symbol in 0..=255 {
        assert_eq!(rt; heard.cost(0, symbol), if symbol == 0 { 0 } else { 1 });
        assert_eq!(rt; heard.cost(1, symbol), if symbol == 3 { 0 } else { 1 });
        assert_eq!(rt; heard.cost(2, symbol), if symbol == 255 { 0 } else { 1 });
        assert_eq!(rt; heard.cost(3, symbol), 0);
        assert_eq!(rt; heard.cost(usize::MAX, symbol), 0);
    }
    assert_eq!(rt; HardWord::new(&[]).len(), 0);
}

#[test]
fn level_words(rt: HostRuntime) {
    let heard = LevelWord::new(&[0, 1, 2, 3, 4, 5, 6, 7, 8, 255]);
    assert_eq!(rt; heard.len(), 10);
    for (place, level) in (0..8).enumerate() {
        assert_eq!(rt; heard.cost(place, 0), level);
        assert_eq!(rt; heard.cost(place, 1), 7 - level);
        assert_eq!(rt; heard.cost(place, 2), 7);
        assert_eq!(rt; heard.cost(place, 255), 7);
    }
    for symbol in 0..=255 {
        assert_eq!(rt; heard.cost(8, symbol), 0);
        assert_eq!(rt; heard.cost(9, symbol), 0);
        assert_eq!(rt; heard.cost(10, symbol), 0);
    }
}

// A place of these two costs, taken together.
fn together(first: u16, second: u16) -> u16 {
    Combined::new(
        Even {
            places: 1,
            each: first,
        },
        Even {
            places: 1,
            each: second,
        },
    )
    .cost(0, 0)
}

#[test]
fn combined_costs_are_held(rt: HostRuntime) {
    assert_eq!(rt; together(30_000, 35_534), 65_534);
    assert_eq!(rt; together(30_000, 35_535), 65_535);
    assert_eq!(rt; together(30_000, 35_536), 65_535);
    assert_eq!(rt; together(65_535, 65_535), 65_535);
}

#[test]
fn combined_places_end_with_the_shorter(rt: HostRuntime) {
    let long = Even { places: 5, each: 2 };
    let short = Even { places: 3, each: 1 };
    for both in [Combined::new(long, short), Combined::new(short, long)] {
        assert_eq!(rt; both.len(), 3);
        assert_eq!(rt; both.cost(2, 0), 3);
        assert_eq!(rt; both.cost(3, 0), 0);
        assert_eq!(rt; both.cost(4, 0), 0);
    }
}

// The length of a window, and what the symbol 9 costs at its first and last place and at the one
// after them.
fn seen(start: usize, count: usize) -> (usize, u16, u16, u16) {
    let window = Window::new(HardWord::new(&[9, 1, 9, 1, 9]), start, count);
    let size = window.len();
    let last = window.cost(size.saturating_sub(1), 9);
    (size, window.cost(0, 9), last, window.cost(size, 9))
}

#[test]
fn windows_at_the_edges(rt: HostRuntime) {
    assert_eq!(rt; seen(0, 5), (5, 0, 0, 0));
    assert_eq!(rt; seen(1, 3), (3, 1, 1, 0));
    assert_eq!(rt; seen(1, 2), (2, 1, 0, 0));
    assert_eq!(rt; seen(3, 2), (2, 1, 0, 0));
    assert_eq!(rt; seen(3, 3), (2, 1, 0, 0));
    assert_eq!(rt; seen(3, usize::MAX), (2, 1, 0, 0));
    assert_eq!(rt; seen(4, 0), (0, 0, 0, 0));
    assert_eq!(rt; seen(5, 1), (0, 0, 0, 0));
    assert_eq!(rt; seen(6, usize::MAX), (0, 0, 0, 0));
    assert_eq!(rt; seen(usize::MAX, usize::MAX), (0, 0, 0, 0));
}

#[test]
fn one_list_of_two_kinds(rt: HostRuntime) {
    let hard = HardWord::new(&[1, 0, 1]);
    let level = LevelWord::new(&[7, 2]);
    let heard = [Either::First(hard), Either::Second(level)];
    assert_eq!(rt; heard[0].len(), 3);
    assert_eq!(rt; heard[1].len(), 2);
    assert_eq!(rt; word_cost(&heard[0], &[1, 1, 1]), Some(1));
    assert_eq!(rt; word_cost(&heard[1], &[1, 1, 1]), Some(5));
}

#[test]
fn words_of_24_places_at_most(rt: HostRuntime) {
    let dear = Even {
        places: 25,
        each: 65_535,
    };
    assert_eq!(rt; word_cost(&dear, &[]), Some(0));
    assert_eq!(rt; word_cost(&dear, &[1; 24]), Some(24 * 65_535));
    assert_eq!(rt; word_cost(&dear, &[1; 25]), None);
}

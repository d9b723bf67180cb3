// Piles of layers, against their costs computed in one go.
ghost use Rattle.std.specs.Prelude.{◌≡◌};
ghost use Rattle.reception.specs.Layers.{hard_word, level_word, combined, window};

use reception::{Combined, Erased, HardWord, LevelWord, Reception, Window};
use std::process::Abort;
use std::test::Fail;

const BYTES: [u8; 9] = [0, 1, 1, 0, 2, 1, 0, 255, 1];

const LEVELS: [u8; 10] = [7, 0, 3, 8, 4, 1, 6, 2, 5, 0];

// The places 2, 3, 4 and 7 are erased.
const SPANS: [u8; 8] = [0, 2, 0, 3, 0, 7, 0, 1];

// What the pile costs at a place, by the rule of each layer in turn.
fn direct(place: usize, symbol: u8) -> u16 {
    if place >= 7 || 1 + place >= 9 {
        return 0;
    }
    let below = 1 + place;
    if matches!(below, 2 | 3 | 4 | 7) {
        return 0;
    }
    let wrong = if BYTES[below] == symbol { 0 } else { 1 };
    let level = u16::from(LEVELS[below]);
    if level > 7 {
        return wrong;
    }
    match symbol {
        0 => wrong + level,
        1 => wrong + 7 - level,
        _ => wrong + 7,
    }
}

fn compare<R: Reception>(rt: &impl Abort, heard: &R) {
    assert_eq!(rt; heard.len(), 7);
    for place in 0..12 {
        for symbol in 0..=255 {
            assert_eq!(rt; heard.cost(place, symbol), direct(place, symbol));
        }
    }
}

#[test]
fn four_layers_by_value(rt: HostRuntime) -> Result<(), Fail> {
    let both = Combined::new(HardWord::new(&BYTES), LevelWord::new(&LEVELS));
    let mut marked = Erased::new(both);
    marked.set_spans(&SPANS)?;
    compare(&rt, &Window::new(marked, 1, 7));
    Ok(())
}

fn by_reference(rt: &impl Abort, bytes: &[u8], levels: &[u8]) -> Result<(), Fail> {
    let hard = HardWord::new(bytes);
    let level = LevelWord::new(levels);
    let both = Combined::new(&hard, &level);
    let mut marked = Erased::new(&both);
    marked.set_spans(&SPANS)?;
    compare(rt, &Window::new(&marked, 1, 7));
    Ok(())
}

#[test]
fn four_layers_by_reference(rt: HostRuntime) -> Result<(), Fail> {
    by_reference(&rt, &BYTES, &LEVELS)
}

// The cost of a pile is that of its layers, one applied to the other.
fn pile_cost(bytes: &[u8], levels: &[u8], place: usize, symbol: u8) -> u16
    ensures { result ≡ (window 1 7 (combined (hard_word bytes.now) (level_word levels.now))).cost place symbol }
{
    let hard = HardWord::new(bytes);
    let both = Combined::new(&hard, LevelWord::new(levels));
    Window::new(&both, 1, 7).cost(place, symbol)
}

#[test]
fn a_pile_as_its_contract_says(rt: HostRuntime) {
    assert_eq!(rt; pile_cost(&BYTES, &LEVELS, 0, 1), 7);
    assert_eq!(rt; pile_cost(&BYTES, &LEVELS, 7, 1), 0);
}

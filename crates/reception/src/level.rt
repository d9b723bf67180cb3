// Soft decisions of two symbols, in eight levels.
ghost use Rattle.std.specs.Prelude.{◌≡◌};
ghost use Rattle.reception.specs.Layers.{level_word};
ghost use Rattle.reception.specs.LayerLaws.{level_lawful};

use crate::Reception;

// The levels of a word, which are lent and not copied. Level v from 0 to 7 costs v for symbol 0, 7 - v
// for symbol 1 and 7 for any other number. A byte above 7 is no level, and costs nothing. Lent bytes
// are all that it shares with a hard word: the rule of costs is another, so it is a type of its own.
#[derive(Clone, Copy)]
pub struct LevelWord<'a> {
    levels: &'a [u8],
}

impl<'a> LevelWord<'a> {
    pub fn new(levels: &'a [u8]) -> LevelWord<'a>
        ensures { result.levels.now ≡ levels.now }
    {
        LevelWord { levels }
    }
}

impl Reception for LevelWord<'_> {
    ghost costs = { λ h. level_word h.levels.now };

    ghost laws = { λ h. level_lawful h.levels.now };

    fn len(&self) -> usize {
        self.levels.len()
    }

    fn cost(&self, place: usize, symbol: u8) -> u16 {
        let Some(level @ 0..=7) = self.levels.get(place) else {
            return 0;
        };
        match symbol {
            0 => u16::from(*level),
            1 => 7 - u16::from(*level),
            _ => 7,
        }
    }
}

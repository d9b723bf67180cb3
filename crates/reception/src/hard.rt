// Hard decisions: a symbol for each place.
ghost use Rattle.std.specs.Prelude.{◌≡◌};
ghost use Rattle.reception.specs.Layers.{hard_word};
ghost use Rattle.reception.specs.LayerLaws.{hard_lawful};

use crate::Reception;

// The bytes of a word, which are lent and not copied. A symbol costs 0 where the byte equals it, and
// 1 elsewhere.
#[derive(Clone, Copy)]
pub struct HardWord<'a> {
    bytes: &'a [u8],
}

impl<'a> HardWord<'a> {
    pub fn new(bytes: &'a [u8]) -> HardWord<'a>
        ensures { result.bytes.now ≡ bytes.now }
    {
        HardWord { bytes }
    }
}

impl Reception for HardWord<'_> {
    ghost costs = { λ h. hard_word h.bytes.now };

    ghost laws = { λ h. hard_lawful h.bytes.now };

    fn len(&self) -> usize {
        self.bytes.len()
    }

    fn cost(&self, place: usize, symbol: u8) -> u16 {
        match self.bytes.get(place) {
            Some(byte) if *byte != symbol => 1,
            _ => 0,
        }
    }
}

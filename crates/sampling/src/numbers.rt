// Numbers that look random, the same at each run.
ghost use Rattle.std.specs.Prelude.{◌≡◌, ℕ, ◌+◌, ◌<◌, slice_index};
ghost use Rattle.sampling.specs.Numbers.{next_state, state_after, drawn};

// A linear congruential generator. Each number is drawn of the high byte of a state.
#[derive(Drop)]
pub struct Numbers {
    state: u32,
}

impl Numbers {
    // The numbers that follow a state.
    pub fn after(state: u32) -> Numbers
        ensures { result.state ≡ state }
    {
        Numbers { state }
    }

    // A number below `count`, or 0 where that is 0.
    pub fn below(&mut self, count: u8) -> u8
        ensures state { self.new.state ≡ next_state self.old.state }
        ensures value { result ≡ drawn count self.new.state }
        ensures below { 0 < count → result < count }
        ensures none { count ≡ 0 → result ≡ 0 }
    {
        self.state = self.state.wrapping_mul(1664525).wrapping_add(1013904223);
        let high = (self.state >> 24) as u8;
        high.checked_rem(count).unwrap_or(0)
    }

    // A word of numbers below `count`, the first place first.
    pub fn word<const N: usize>(&mut self, count: u8) -> [u8; N]
        ensures state { self.new.state ≡ state_after self.old.state N }
        ensures values { (p : ℕ) → p < N → slice_index result p ≡ drawn count (state_after self.old.state (p + 1)) }
    {
        let mut word = [0; N];
        for number in word.iter_mut() {
            *number = self.below(count);
        }
        word
    }
}

// What a whole word costs.
ghost use Rattle.std.specs.Prelude.{◌≡◌, ◌<◌, ◌≤◌, length, MatchOption};
ghost use Rattle.reception.specs.Costs.{word_cost, symbol_at};

use crate::Reception;

// The sum of what its symbols cost at their places, or nothing for a word of more than 24 places,
// which no code has.
pub fn word_cost<R: Reception>(reception: &R, word: &[u8]) -> Option<u32>
    ensures { MatchOption result (24 < length word.now) (λ c. (length word.now ≤ 24) × (c ≡ word_cost (R.Reception.costs reception.now) (length word.now) (symbol_at word.now))) }
{
    if word.len() > 24 {
        return None;
    }
    let mut total: u32 = 0;
    for (place, symbol) in word.iter().enumerate() {
        total += u32::from(reception.cost(place, *symbol));
    }
    Some(total)
}

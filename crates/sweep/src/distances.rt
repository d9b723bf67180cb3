// The minimum distance, compared with all pairs of codewords.
use crate::sample::Sample;
use crate::subject::Subject;
use crate::words::{Word, differing};
use field::Field;

// The least number of places in which two of the codewords differ, or nothing where there is one.
fn least_distance(codewords: &[Word]) -> Option<u32> {
    codewords
        .iter()
        .enumerate()
        .filter_map(|(i, a)| codewords.iter().take(i).map(|b| differing(a, b)).min())
        .min()
}

impl<F: Field> Sample<F> {
    // Compares the distance with that of the pairs, and the work memory.
    pub(crate) fn check_distance(&mut self) -> Result<(), Subject> {
        let least = least_distance(&self.codewords);
        self.soil();
        let answer = self.code.distance(&mut self.work);
        let alone = self.shape.dimension == 0;
        Subject::Distance.agrees_if(
            answer == Ok(least) && least.is_none() == alone && self.is_clear(),
        )
    }
}

// Coset leaders, compared with the weights of all words.
use crate::least_cost::Least;
use crate::sample::Sample;
use crate::subject::{Fault, Subject};
use crate::words::{LONGEST, Word, differing, unwritten, word_of};
use field::Field;
use sampling::inner_product;
use std::alloc::Global;

// The index of a word's syndrome: its digits to the base q, that of the first check row first.
fn syndrome_index<F: Field>(checks: &[Word], word: &Word) -> usize {
    let base = usize::from(F::order());
    checks.iter().fold(0, |index: usize, row| {
        let digit = usize::from(inner_product::<F>(row, word));
        index.wrapping_mul(base).wrapping_add(digit)
    })
}

impl<F: Field> Sample<F> {
    fn check_rows(&self, heap: Global) -> Result<Vec<Word>, Fault> {
        let mut rows = Vec::new(heap);
        // Check rows are asked for by their number.
        for i in 0..self.shape.checks() {
            let mut row = unwritten(self.shape.length);
            self.code
                .check_row(i, &mut row)
                .map_err(|_| Subject::Leader)?;
            rows.push(row)?;
        }
        Ok(rows)
    }

    // The least weight in each coset, of all words of n symbols. Words come in order, so the last of
    // the least weight has the larger symbol at the first place where it differs from another.
    fn lightest_words(&self, heap: Global) -> Result<Vec<Option<Least>>, Fault> {
        let checks = self.check_rows(heap)?;
        let mut cosets = vec![in heap; None; self.shape.cosets::<F>()]?;
        for number in 0..self.shape.words::<F>() {
            let word = word_of::<F>(number, self.shape.length);
            let index = syndrome_index::<F>(&checks, &word);
            let weight = differing(&word, &[0; LONGEST]);
            if let Some(lightest) = cosets.get_mut(index) {
                *lightest = Some(Least::of_one_more(*lightest, number, weight));
            }
        }
        Ok(cosets)
    }

    // Finds the leader of a coset, and compares it, the answer and the work memory.
    fn check_leader(&mut self, index: usize, lightest: Least) -> Result<(), Subject> {
        let n = self.shape.length;
        let mut leader = unwritten(n);
        self.soil();
        let answer = self.code.leader(index, &mut self.work, &mut leader);
        let expected = Ok((lightest.cost, lightest.is_sole()));
        let right = answer == expected && leader == word_of::<F>(lightest.last, n);
        Subject::Leader.agrees_if(right && self.is_clear())
    }

    // Compares the leaders of all cosets, and tells how many of them are sole.
    pub(crate) fn check_leaders(&mut self, heap: Global) -> Result<usize, Fault> {
        let cosets = self.lightest_words(heap)?;
        let mut sole = 0usize;
        for (index, coset) in cosets.iter().enumerate() {
            let lightest = coset.ok_or(Subject::Leader)?;
            self.check_leader(index, lightest)?;
            sole = sole.saturating_add(usize::from(lightest.is_sole()));
        }
        Ok(sole)
    }
}

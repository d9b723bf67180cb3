// Decodings, compared with the costs of all codewords.
use crate::drawing::{draw_spans, draw_word};
use crate::kept::Kept;
use crate::least_cost::Least;
use crate::sample::Sample;
use crate::subject::Subject;
use crate::words::{Word, unwritten, word_of};
use field::Field;
use reception::{Combined, Erased, HardWord, LevelWord, Reception, word_cost};
use refusal::Refusal;
use sampling::Numbers;

// The least cost of the codewords, each with its message's number.
fn cheapest<R: Reception>(codewords: &[Word], heard: &R) -> Option<Least> {
    codewords
        .iter()
        .enumerate()
        .fold(None, |so_far, (number, word)| {
            let cost = word_cost(heard, word).unwrap_or(u32::MAX);
            Some(Least::of_one_more(so_far, number, cost))
        })
}

impl<F: Field> Sample<F> {
    // Counts a decoding as enumerated, and gives what it should answer and what the message buffer
    // should hold after it.
    fn count_decoding(&mut self, least: Least) -> (Result<u32, Refusal>, Word) {
        let k = self.shape.dimension;
        if least.is_sole() {
            self.kept.add_answered(least.cost);
            (Ok(least.cost), word_of::<F>(least.last, k))
        } else {
            self.kept.add_tied();
            (Err(Refusal::Tied(least.cost)), unwritten(k))
        }
    }

    // Decodes what is heard, and compares the answer, the message written and the work memory.
    fn check_decoding<R: Reception>(&mut self, what: Subject, heard: &R) -> Result<(), Subject> {
        let least = cheapest(&self.codewords, heard).ok_or(what)?;
        let expected = self.count_decoding(least);
        let mut message = unwritten(self.shape.dimension);
        self.soil();
        let answer = self.code.decode(heard, &mut self.work, &mut message);
        what.agrees_if((answer, message) == expected && self.is_clear())
    }

    // Draws one reception of each kind, and compares how they are decoded. Some of the bytes of the
    // first are no symbols, and some of those of the second no levels.
    pub(crate) fn check_decodings(&mut self, numbers: &mut Numbers) -> Result<(), Subject> {
        let n = self.shape.length;
        let q = F::order();
        let hard = draw_word(numbers, q.saturating_add(2), n);
        self.check_decoding(Subject::HardWord, &HardWord::new(&hard))?;
        let levels = draw_word(numbers, 10, n);
        self.check_decoding(Subject::LevelWord, &LevelWord::new(&levels))?;
        let hard = draw_word(numbers, q, n);
        let spans = draw_spans(numbers, &hard);
        let mut erased = Erased::new(HardWord::new(&hard));
        erased.set_spans(&spans).map_err(|_| Subject::Erasures)?;
        self.check_decoding(Subject::Erasures, &erased)?;
        let hard = draw_word(numbers, q, n);
        let levels = draw_word(numbers, 10, n);
        let both = Combined::new(HardWord::new(&hard), LevelWord::new(&levels));
        self.check_decoding(Subject::HardAndLevel, &both)?;
        let hard = draw_word(numbers, q, n);
        let other = draw_word(numbers, q, n);
        let both = Combined::new(HardWord::new(&hard), HardWord::new(&other));
        self.check_decoding(Subject::TwoHard, &both)
    }

    // Compares the tally and the noise figure with those of the decodings as enumerated.
    pub(crate) fn check_tally(&self) -> Result<(), Subject> {
        let tallied = Kept::from(self.code.tally()) == self.kept;
        Subject::Tally.agrees_if(tallied && self.code.noise_figure() == self.kept.noise_figure())
    }
}

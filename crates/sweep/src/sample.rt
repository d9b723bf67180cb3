// A code with all that is enumerated of it.
use crate::kept::Kept;
use crate::shape::Shape;
use crate::subject::{Fault, Subject};
use crate::words::{Word, unwritten, word_of};
use code::Code;
use field::Field;
use std::alloc::Global;

#[derive(Drop)]
pub(crate) struct Sample<F> {
    pub(crate) code: Code<F>,
    pub(crate) shape: Shape,
    // In the order of their messages' numbers.
    pub(crate) codewords: Vec<Word>,
    pub(crate) work: Vec<u32>,
    pub(crate) kept: Kept,
}

// The codewords of all messages, in the order of the messages' numbers.
fn all_codewords<F: Field>(heap: Global, code: &Code<F>) -> Result<Vec<Word>, Fault> {
    let shape = Shape::of(code);
    let mut codewords = Vec::new(heap);
    for number in 0..shape.codewords::<F>() {
        let message = word_of::<F>(number, shape.dimension);
        let mut word = unwritten(shape.length);
        code.encode(&message, &mut word)
            .map_err(|_| Subject::Encoding)?;
        codewords.push(word)?;
    }
    Ok(codewords)
}

impl<F: Field> Sample<F> {
    // A code with as much work memory as it needs.
    pub(crate) fn new(heap: Global, code: Code<F>) -> Result<Sample<F>, Fault> {
        let shape = Shape::of(&code);
        let codewords = all_codewords(heap, &code)?;
        let rows = shape.length.saturating_add(1).saturating_mul(2);
        let work = vec![in heap; 0; shape.cosets::<F>().saturating_mul(rows)]?;
        Ok(Sample {
            code,
            shape,
            codewords,
            work,
            kept: Kept::default(),
        })
    }

    // Fills the work memory with what no call may leave there.
    pub(crate) fn soil(&mut self) {
        self.work.fill(12345);
    }

    // Whether the work memory is all 0.
    pub(crate) fn is_clear(&self) -> bool {
        self.work.iter().all(|word| *word == 0)
    }
}

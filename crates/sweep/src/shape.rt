// The shape of a code, and how many words of each kind it has.
use crate::words::count_words;
use code::Code;
use field::Field;
use std::fmt;

// The length and the dimension of a code.
#[derive(Clone, Copy, Debug, PartialEq, Eq)]
pub(crate) struct Shape {
    pub(crate) length: usize,
    pub(crate) dimension: usize,
}

impl Shape {
    pub(crate) fn of<F: Field>(code: &Code<F>) -> Shape {
        Shape {
            length: code.length(),
            dimension: code.dimension(),
        }
    }

    // How many check rows there are.
    pub(crate) fn checks(&self) -> usize {
        self.length.saturating_sub(self.dimension)
    }

    pub(crate) fn codewords<F: Field>(&self) -> usize {
        count_words::<F>(self.dimension)
    }

    pub(crate) fn cosets<F: Field>(&self) -> usize {
        count_words::<F>(self.checks())
    }

    pub(crate) fn words<F: Field>(&self) -> usize {
        count_words::<F>(self.length)
    }
}

impl fmt::Display for Shape {
    fn fmt<W: fmt::Write>(&self, f: &mut fmt::Formatter<W>) -> fmt::Result {
        write!(f, "length {}, dimension {}", self.length, self.dimension)
    }
}

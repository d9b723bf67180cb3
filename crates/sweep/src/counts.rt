// How much was compared.
use crate::kept::Kept;
use std::fmt;

#[derive(Clone, Copy, Default)]
pub(crate) struct Counts {
    codes: u32,
    answered: u32,
    tied: u32,
    sole: usize,
    shared: usize,
}

impl Counts {
    // Counts a code with its decodings.
    pub(crate) fn add_code(&mut self, kept: Kept) {
        self.codes = self.codes.saturating_add(1);
        self.answered = self.answered.saturating_add(kept.answered);
        self.tied = self.tied.saturating_add(kept.tied);
    }

    // Counts the leaders of a code.
    pub(crate) fn add_leaders(&mut self, sole: usize, cosets: usize) {
        self.sole = self.sole.saturating_add(sole);
        self.shared = self.shared.saturating_add(cosets.saturating_sub(sole));
    }
}

impl fmt::Display for Counts {
    fn fmt<W: fmt::Write>(&self, f: &mut fmt::Formatter<W>) -> fmt::Result {
        let Counts {
            codes,
            answered,
            tied,
            sole,
            shared,
        } = *self;
        write!(
            f,
            "{codes} codes; decodings: {answered} answered, {tied} tied; "
        )?;
        write!(
            f,
            "leaders: {sole} sole, {shared} shared; distances: {codes}"
        )
    }
}

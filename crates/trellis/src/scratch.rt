// The lent work memory, which is left clear.
ghost use Rattle.trellis.specs.Clearing.{Cleared};

// Holds the work memory while it is used. At its end all of the words are 0, those that were not
// needed too.
pub(crate) struct Scratch<'a> {
    pub(crate) words: &'a mut [u32],
}

impl Drop for Scratch<'_> {
    fn drop(self)
        ensures { Cleared self.exit.0.now }
    {
        self.words.fill(0);
        let Scratch { words: _ } = self;
    }
}

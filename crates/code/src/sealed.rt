// A sealed code: its generator can be read and encoded with, and no call changes it.
ghost use Rattle.std.specs.Prelude.{◌≡◌, List, length, OnErr};
ghost use Rattle.generator.specs.Parts.{size, dimension};
ghost use Rattle.tally.specs.Tallies.{counts_of, none_yet};
ghost use Rattle.code.specs.Drafts.{State, Holds};
ghost use Rattle.code.specs.Histories.{Call, Held, Follows};
ghost use Rattle.code.specs.Codes.{Sealed, BufferChecked, MessageEncoded, ReducedRead, CheckRead};

use crate::draft::{Draft, check_word};
use field::Field;
use generator::Generator;
use refusal::Refusal;
use std::marker::PhantomData;
use tally::Tally;

// What is sent needs the generator alone; what is received is counted in the tally.
#[derive(Drop)]
pub struct Code<F> {
    pub(crate) generator: Generator,
    pub(crate) tally: Tally,
    field: PhantomData<F>,
}

impl<F: Field> Draft<F> {
    // Ends the draft, and gives the code that its rows generate, with nothing in its tally.
    pub fn seal(self) -> Code<F>
        ensures told { (s : State) → Holds F.Field.ops self.basis s → Sealed F.Field.ops s result.generator }
        ensures follows { (calls : List Call) (s : State) → Follows F.Field.ops calls self.basis → Held F.Field.ops calls s → Sealed F.Field.ops s result.generator }
        ensures tally { counts_of result.tally ≡ none_yet }
    {
        Code {
            generator: self.basis.generator::<F>(),
            tally: Tally::new(),
            field: PhantomData,
        }
    }
}

impl<F: Field> Code<F> {
    pub fn length(&self) -> usize
        ensures { result ≡ size self.now.generator }
    {
        self.generator.length()
    }

    // How many symbols a message has.
    pub fn dimension(&self) -> usize
        ensures { result ≡ dimension self.now.generator }
    {
        self.generator.dimension()
    }

    // How many decodings were answered and tied, and what the answered ones cost in all.
    pub fn tally(&self) -> Tally
        ensures { result ≡ self.now.tally }
    {
        self.tally
    }

    // Turns away a buffer that is not of the code's length.
    fn check_buffer(&self, out: &[u8]) -> Result<(), Refusal>
        ensures { BufferChecked self.now.generator (length out.now) result }
    {
        let n = self.generator.length();
        if out.len() == n {
            Ok(())
        } else {
            Err(Refusal::BufferLength(n))
        }
    }

    // Writes the codeword of a message.
    pub fn encode(&self, message: &[u8], out: &mut [u8]) -> Result<(), Refusal>
        ensures told { MessageEncoded F.Field.ops self.now.generator message.now (length out.old) out.new result }
        ensures kept { OnErr result (out.new ≡ out.old) }
    {
        check_word::<F>(message, self.generator.dimension())?;
        self.check_buffer(out)?;
        self.generator.encode::<F>(message, out);
        Ok(())
    }

    // Writes the reduced row i, and answers its information place.
    pub fn reduced_row(&self, i: usize, out: &mut [u8]) -> Result<usize, Refusal>
        ensures told { ReducedRead F.Field.ops self.now.generator i (length out.old) out.new result }
        ensures kept { OnErr result (out.new ≡ out.old) }
    {
        self.check_buffer(out)?;
        let k = self.generator.dimension();
        if i >= k {
            return Err(Refusal::Index(k));
        }
        for (p, symbol) in out.iter_mut().enumerate() {
            *symbol = self.generator.symbol::<F>(i, p);
        }
        Ok(self.generator.place(i))
    }

    // Writes the check row i.
    pub fn check_row(&self, i: usize, out: &mut [u8]) -> Result<(), Refusal>
        ensures told { CheckRead F.Field.ops self.now.generator i (length out.old) out.new result }
        ensures kept { OnErr result (out.new ≡ out.old) }
    {
        self.check_buffer(out)?;
        let Some(place) = self.generator.check_place(i) else {
            let n = self.generator.length();
            return Err(Refusal::Index(n - self.generator.dimension()));
        };
        self.generator.check_row::<F>(place, out);
        Ok(())
    }
}

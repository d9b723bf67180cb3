// A sweep over codes of every length and dimension of a field.
use crate::counts::Counts;
use crate::drawing::draw_code;
use crate::sample::Sample;
use crate::shape::Shape;
use crate::subject::{Fault, Subject};
use crate::words::LONGEST;
use field::Field;
use sampling::Numbers;
use std::alloc::Global;
use std::io;

// The most codewords of a code that is compared.
const MOST_CODEWORDS: usize = 1024;

// The most cosets of a code that is compared.
const MOST_COSETS: usize = 4096;

// The most words of n symbols, where leaders are compared.
const MOST_WORDS: usize = 4096;

// The most cosets, where leaders are compared.
const MOST_LEADERS: usize = 256;

// How many receptions of each kind are decoded with a code.
const ROUNDS: usize = 3;

#[derive(Drop)]
pub(crate) struct Sweep {
    numbers: Numbers,
    // How many codes of each shape are drawn.
    samples: usize,
    pub(crate) counts: Counts,
}

impl Sweep {
    pub(crate) fn new(samples: usize) -> Sweep {
        Sweep {
            numbers: Numbers::after(1),
            samples,
            counts: Counts::default(),
        }
    }

    // Draws a code of a shape, and compares all that is enumerated of it. Leaders are left out where
    // there is too much to enumerate.
    fn compare_code<F: Field>(&mut self, heap: Global, shape: Shape) -> Result<(), Fault> {
        let code = draw_code::<F>(&mut self.numbers, shape);
        let mut sample = Sample::new(heap, code)?;
        Subject::Encoding.agrees_if(sample.shape == shape)?;
        for _ in 0..ROUNDS {
            sample.check_decodings(&mut self.numbers)?;
        }
        sample.check_tally()?;
        sample.check_distance()?;
        let cosets = shape.cosets::<F>();
        if shape.words::<F>() <= MOST_WORDS && cosets <= MOST_LEADERS {
            let sole = sample.check_leaders(heap)?;
            self.counts.add_leaders(sole, cosets);
        }
        self.counts.add_code(sample.kept);
        Ok(())
    }

    // Compares codes of a shape, unless there is too much to enumerate. What differs is printed, and
    // ends the sweep.
    fn compare_shape<F: Field>(&mut self, rt: &HostRuntime, shape: Shape) -> io::Result<()> {
        if shape.codewords::<F>() > MOST_CODEWORDS || shape.cosets::<F>() > MOST_COSETS {
            return Ok(());
        }
        for _ in 0..self.samples {
            match self.compare_code::<F>(rt.alloc(), shape) {
                Ok(()) => {}
                Err(Fault::Memory(error)) => return Err(error.into()),
                Err(Fault::Differs(what)) => {
                    let order = F::order();
                    println!(rt; "differs: {what}, at order {order}, {shape}")?;
                    return Err(io::ErrorKind::InvalidData.into());
                }
            }
        }
        Ok(())
    }

    // Compares codes of each length up to `longest` and each dimension.
    pub(crate) fn compare_field<F: Field>(
        &mut self,
        rt: &HostRuntime,
        longest: usize,
    ) -> io::Result<()> {
        for length in 1..=longest.min(LONGEST) {
            for dimension in 0..=length {
                self.compare_shape::<F>(rt, Shape { length, dimension })?;
            }
        }
        Ok(())
    }
}

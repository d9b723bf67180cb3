// A draft of a generator: a length, and rows that are loaded and withdrawn at their end.
ghost use Rattle.std.specs.Prelude.{◌≡◌, ℕ, ◌<◌, [], length, MatchOption, OnErr, slice_index};
ghost use Rattle.algebra.specs.Words.{cells, Independent};
ghost use Rattle.code.specs.Drafts.{State, fresh, Holds, FirstNone, WordChecked, LengthSet, RowPushed, RowPopped, after_length, after_push, after_pop, Turns};
ghost use Rattle.code.specs.Histories.{set_length, push_row, pop_row, Follows, GoesOn, TellsDependence};

use basis::Basis;
use field::Field;
use refusal::Refusal;
use std::marker::PhantomData;

// Only the span of the rows matters to every call, so the basis that they make is kept in their place.
#[derive(Drop)]
pub struct Draft<F> {
    pub(crate) basis: Basis,
    field: PhantomData<F>,
}

// The first place at which a word has a number that is no symbol.
pub(crate) fn first_no_symbol<F: Field>(word: &[u8]) -> Option<usize>
    ensures { MatchOption result ((p : ℕ) → p < length word.now → slice_index word.now p < F.Field.ops.order) (FirstNone F.Field.ops word.now) }
{
    let order = F::order();
    word.iter().position(|symbol| *symbol >= order)
}

// Turns away what is not a word of n symbols: first for its length, then for the first number in it
// that is no symbol.
pub(crate) fn check_word<F: Field>(word: &[u8], n: usize) -> Result<(), Refusal>
    ensures { WordChecked F.Field.ops n word.now result }
{
    if word.len() != n {
        return Err(Refusal::WrongLength(n));
    }
    match first_no_symbol::<F>(word) {
        Some(place) => Err(Refusal::NoSymbol(place)),
        None => Ok(()),
    }
}

impl<F: Field> Draft<F> {
    // A fresh draft: of length 1, without rows.
    pub fn new() -> Draft<F>
        ensures holds { Holds F.Field.ops result.basis fresh }
        ensures follows { Follows F.Field.ops [] result.basis }
    {
        Draft {
            basis: Basis::empty(1),
            field: PhantomData,
        }
    }

    pub fn length(&self) -> usize
        ensures { (s : State) → Holds F.Field.ops self.now.basis s → result ≡ s.size }
    {
        self.basis.length()
    }

    // How many rows are held. Every draft stands for some length and rows, and rows for which it
    // stands are independent.
    pub fn count(&self) -> usize
        ensures told { (s : State) → Holds F.Field.ops self.now.basis s → result ≡ length s.rows }
        ensures some { (s : State) × Holds F.Field.ops self.now.basis s }
        ensures independent { (s : State) → Holds F.Field.ops self.now.basis s → Independent F.Field.ops (length s.rows) (cells s.rows) }
    {
        self.basis.count()
    }

    // Sets the length, while no row is held.
    pub fn set_length(&mut self, n: usize) -> Result<(), Refusal>
        ensures told { Turns F.Field.ops self.old.basis (λ s. LengthSet s n) (λ s. after_length s n) result self.new.basis }
        ensures follows { GoesOn F.Field.ops self.old.basis (set_length n) self.new.basis }
        ensures kept { OnErr result (self.new ≡ self.old) }
    {
        if n == 0 || n > 24 {
            return Err(Refusal::Length(n));
        }
        let rows = self.basis.count();
        if rows > 0 {
            return Err(Refusal::RowsHeld(rows));
        }
        self.basis = Basis::empty(n);
        Ok(())
    }

    // Loads a row after those held, and answers how many are held then.
    pub fn push_row(&mut self, row: &[u8]) -> Result<usize, Refusal>
        ensures told { Turns F.Field.ops self.old.basis (λ s. RowPushed F.Field.ops s row.now) (λ s. after_push s row.now) result self.new.basis }
        ensures follows { GoesOn F.Field.ops self.old.basis (push_row row.now) self.new.basis }
        ensures dependent { TellsDependence F.Field.ops self.old.basis row.now result }
        ensures kept { OnErr result (self.new ≡ self.old) }
    {
        check_word::<F>(row, self.basis.length())?;
        if self.basis.extend::<F>(row) {
            Ok(self.basis.count())
        } else {
            Err(Refusal::Dependent(self.basis.count()))
        }
    }

    // Withdraws the row loaded last, and answers how many are held then.
    pub fn pop_row(&mut self) -> Result<usize, Refusal>
        ensures told { Turns F.Field.ops self.old.basis RowPopped after_pop result self.new.basis }
        ensures follows { GoesOn F.Field.ops self.old.basis pop_row self.new.basis }
        ensures kept { OnErr result (self.new ≡ self.old) }
    {
        if self.basis.shorten() {
            Ok(self.basis.count())
        } else {
            Err(Refusal::NoRow)
        }
    }
}

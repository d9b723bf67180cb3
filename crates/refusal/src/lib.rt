// Why a call is turned away: every cause, with its number and the value that is returned.
#![tactic(auto)]

ghost use Rattle.std.specs.Prelude.{◌≡◌};
ghost use Rattle.refusal.specs.Refusals.{number, value};

// Each case holds the value that is returned with it, where there is one.
#[derive(Clone, Copy, Debug, PartialEq, Eq)]
pub enum Refusal {
    // The length wanted is 0 or above 24.
    Length(usize),
    // The length is set while rows are held, so many.
    RowsHeld(usize),
    // A row or a message is not of the right length, which is this.
    WrongLength(usize),
    // At this place, the first such, stands a number that is no symbol.
    NoSymbol(usize),
    // The row is a sum of multiples of the rows held, so many.
    Dependent(usize),
    // There is no row to withdraw.
    NoRow,
    // There are more cosets than a decoding takes; the length less the number of rows is this.
    Cosets(usize),
    // The work memory is too short; so many words are needed.
    WorkMemory(usize),
    // The output buffer is not of the right length, which is this.
    BufferLength(usize),
    // The index is not below the count, which is this.
    Index(usize),
    // The tally is full.
    TallyFull,
    // More than one codeword has the least cost, which is this.
    Tied(u32),
    // A list of spans has more than 32 bytes, or their number, which is this, is no multiple of 4.
    SpanBytes(usize),
    // In a list of spans this pair, the first such, is against its rule.
    SpanPair(usize),
    // No decoding was answered, so there is no noise figure.
    NoneAnswered,
}

impl Refusal {
    // The number by which the refusal is told. The panel and the table of refusals go by it.
    pub fn number(&self) -> u8
        ensures { result ≡ number self.now }
    {
        match self {
            Refusal::Length(_) => 1,
            Refusal::RowsHeld(_) => 2,
            Refusal::WrongLength(_) => 4,
            Refusal::NoSymbol(_) => 5,
            Refusal::Dependent(_) => 6,
            Refusal::NoRow => 7,
            Refusal::Cosets(_) => 8,
            Refusal::WorkMemory(_) => 9,
            Refusal::BufferLength(_) => 10,
            Refusal::Index(_) => 11,
            Refusal::TallyFull => 12,
            Refusal::Tied(_) => 13,
            Refusal::SpanBytes(_) => 16,
            Refusal::SpanPair(_) => 17,
            Refusal::NoneAnswered => 18,
        }
    }

    // The value that is returned with it.
    pub fn value(&self) -> Option<usize>
        ensures { result ≡ value self.now }
    {
        match self {
            Refusal::Length(n)
            | Refusal::RowsHeld(n)
            | Refusal::WrongLength(n)
            | Refusal::NoSymbol(n)
            | Refusal::Dependent(n)
            | Refusal::Cosets(n)
            | Refusal::WorkMemory(n)
            | Refusal::BufferLength(n)
            | Refusal::Index(n)
            | Refusal::SpanBytes(n)
            | Refusal::SpanPair(n) => Some(*n),
            Refusal::Tied(cost) => Some(*cost as usize),
            Refusal::NoRow | Refusal::TallyFull | Refusal::NoneAnswered => None,
        }
    }
}

// Erasures: spans of places of which nothing is known.
ghost use Rattle.std.specs.Prelude.{◌≡◌, MatchResult};
ghost use Rattle.reception.specs.Layers as Layers;
ghost use Rattle.reception.specs.LayerLaws.{erased_lawful};
ghost use Rattle.reception.specs.Spans.{span_end, within, covered};
ghost use Rattle.reception.specs.SpanLists.{no_spans, pair, SpansSet, spans_of};

use crate::Reception;
use refusal::Refusal;

// So many places in a row, from `offset` on.
#[derive(Clone, Copy, Default)]
pub(crate) struct Span {
    offset: u16,
    count: u16,
}

// A pair of a list of spans: the offset and the count, each with its high byte first.
impl From<[u8; 4]> for Span {
    ghost from_gives = { λ bytes span. span ≡ pair bytes 0 };

    fn from(bytes: [u8; 4]) -> Span {
        let [offset_high, offset_low, count_high, count_low] = bytes;
        Span {
            offset: u16::from_be_bytes([offset_high, offset_low]),
            count: u16::from_be_bytes([count_high, count_low]),
        }
    }
}

impl Span {
    // The place after the last.
    fn end(&self) -> usize
        ensures { result ≡ span_end self.now }
    {
        usize::from(self.offset) + usize::from(self.count)
    }

    fn has(&self, place: usize) -> bool
        ensures { result ≡ within self.now place }
    {
        (usize::from(self.offset)..self.end()).contains(&place)
    }
}

// Has the length of the reception below. The places in its spans cost nothing, and the others what
// they cost below. There is room for eight spans; those that are not used are empty.
#[derive(Drop)]
pub struct Erased<R> {
    under: R,
    spans: [Span; 8],
}

impl<R: Reception> Erased<R> {
    // Without spans.
    pub fn new(under: R) -> Erased<R>
        ensures under { result.under ≡ under }
        ensures spans { result.spans ≡ no_spans }
    {
        Erased {
            under,
            spans: [Span::default(); 8],
        }
    }

    // Puts the spans that `bytes` lists in the place of the earlier ones: at most 8 pairs of offset
    // and count, two bytes each, the high byte first. A refusal leaves the spans as they were.
    #[tactic(auto, using(crate::proofs::Listing::pair_alone))]
    pub fn set_spans(&mut self, bytes: &[u8]) -> Result<(), Refusal>
        ensures told { SpansSet (R.Reception.costs self.old.under).size bytes.now result }
        ensures spans { MatchResult result (λ _. self.new.spans ≡ spans_of bytes.now) (λ _. self.new ≡ self.old) }
        ensures under { self.new.under ≡ self.old.under }
    {
        if bytes.len() > 32 || bytes.len() % 4 != 0 {
            return Err(Refusal::SpanBytes(bytes.len()));
        }
        let (pairs, _) = bytes.as_chunks::<4>();
        let size = self.under.len();
        let mut spans = [Span::default(); 8];
        let mut end_ahead = 0;
        for (k, pair) in pairs.iter().enumerate() {
            let span = Span::from(*pair);
            let end = span.end();
            if span.count == 0 || usize::from(span.offset) < end_ahead || size < end {
                return Err(Refusal::SpanPair(k));
            }
            spans[k] = span;
            end_ahead = end;
        }
        self.spans = spans;
        Ok(())
    }

    // Whether the place is in one of the spans.
    fn is_covered(&self, place: usize) -> bool
        ensures { result ≡ covered self.now.spans place }
    {
        self.spans.iter().any(|span| span.has(place))
    }
}

impl<R: Reception> Reception for Erased<R> {
    ghost costs = { λ e. Layers.erased e.spans (R.Reception.costs e.under) };

    ghost laws = { λ e. erased_lawful e.spans (R.Reception.costs e.under) (R.Reception.laws e.under) };

    fn len(&self) -> usize {
        self.under.len()
    }

    fn cost(&self, place: usize, symbol: u8) -> u16 {
        if self.is_covered(place) {
            0
        } else {
            self.under.cost(place, symbol)
        }
    }
}

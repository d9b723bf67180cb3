// Lists of spans, at their edges.
use crate::even::Even;
use reception::{Erased, Reception};
use refusal::Refusal;
use std::process::Abort;
use std::test::Fail;

// Ten places that cost 1, of which the places 4 and 5 are erased.
fn ten() -> Result<Erased<Even>, Refusal> {
    let mut heard = Erased::new(Even {
        places: 10,
        each: 1,
    });
    heard.set_spans(&[0, 4, 0, 2])?;
    Ok(heard)
}

// The first sixteen places: which of them cost nothing.
fn silent(heard: &Erased<Even>) -> [u16; 16] {
    std::array::from_fn(|place| heard.cost(place, 0))
}

const NONE: [u16; 16] = [1, 1, 1, 1, 1, 1, 1, 1, 1, 1, 0, 0, 0, 0, 0, 0];

const BEFORE: [u16; 16] = [1, 1, 1, 1, 0, 0, 1, 1, 1, 1, 0, 0, 0, 0, 0, 0];

fn accepted(rt: &impl Abort, bytes: &[u8], costs: [u16; 16]) -> Result<(), Fail> {
    let mut heard = ten()?;
    assert_eq!(rt; heard.set_spans(bytes), Ok(()));
    assert_eq!(rt; heard.len(), 10);
    assert_eq!(rt; silent(&heard), costs);
    Ok(())
}

fn refused(rt: &impl Abort, bytes: &[u8], refusal: Refusal) -> Result<(), Fail> {
    let mut heard = ten()?;
    assert_eq!(rt; heard.set_spans(bytes), Err(refusal));
    assert_eq!(rt; silent(&heard), BEFORE);
    Ok(())
}

#[test]
fn without_spans_at_first(rt: HostRuntime) -> Result<(), Fail> {
    assert_eq!(rt;
        silent(&Erased::new(Even {
            places: 10,
            each: 1,
        }),),
        NONE
    );
    assert_eq!(rt; silent(&ten()?), BEFORE);
    Ok(())
}

#[test]
fn spans_at_the_edges(rt: HostRuntime) -> Result<(), Fail> {
    accepted(&rt, &[], NONE)?;
    accepted(
        &rt,
        &[0, 0, 0, 1],
        [0, 1, 1, 1, 1, 1, 1, 1, 1, 1, 0, 0, 0, 0, 0, 0],
    )?;
    accepted(
        &rt,
        &[0, 9, 0, 1],
        [1, 1, 1, 1, 1, 1, 1, 1, 1, 0, 0, 0, 0, 0, 0, 0],
    )?;
    accepted(&rt, &[0, 0, 0, 10], [0; 16])
}

#[test]
fn spans_that_touch(rt: HostRuntime) -> Result<(), Fail> {
    accepted(
        &rt,
        &[0, 1, 0, 2, 0, 3, 0, 1],
        [1, 0, 0, 0, 1, 1, 1, 1, 1, 1, 0, 0, 0, 0, 0, 0],
    )
}

#[test]
fn eight_pairs(rt: HostRuntime) -> Result<(), Fail> {
    let bytes = [
        0, 0, 0, 1, 0, 1, 0, 1, 0, 2, 0, 1, 0, 3, 0, 1, 0, 4, 0, 1, 0, 5, 0, 1, 0, 6, 0, 1, 0, 9,
        0, 1,
    ];
    accepted(
        &rt,
        &bytes,
        [0, 0, 0, 0, 0, 0, 0, 1, 1, 0, 0, 0, 0, 0, 0, 0],
    )
}

#[test]
fn pairs_against_their_rule(rt: HostRuntime) -> Result<(), Fail> {
    // Empty, past the end, and far past it.
    refused(&rt, &[0, 3, 0, 0], Refusal::SpanPair(0))?;
    refused(&rt, &[0, 0, 0, 11], Refusal::SpanPair(0))?;
    refused(&rt, &[0, 9, 0, 2], Refusal::SpanPair(0))?;
    refused(&rt, &[0, 10, 0, 1], Refusal::SpanPair(0))?;
    refused(&rt, &[255, 255, 255, 255], Refusal::SpanPair(0))?;
    // The second pair: it overlaps, comes before the first, or is the first again.
    refused(&rt, &[0, 1, 0, 3, 0, 3, 0, 2], Refusal::SpanPair(1))?;
    refused(&rt, &[0, 5, 0, 1, 0, 2, 0, 1], Refusal::SpanPair(1))?;
    refused(&rt, &[0, 5, 0, 1, 0, 5, 0, 1], Refusal::SpanPair(1))?;
    // Of several pairs the first is told.
    refused(
        &rt,
        &[0, 5, 0, 1, 0, 6, 0, 0, 0, 0, 0, 0],
        Refusal::SpanPair(1),
    )
}

#[test]
fn byte_counts(rt: HostRuntime) -> Result<(), Fail> {
    refused(&rt, &[0, 3, 0, 0, 0, 0], Refusal::SpanBytes(6))?;
    refused(&rt, &[0; 3], Refusal::SpanBytes(3))?;
    refused(&rt, &[0; 33], Refusal::SpanBytes(33))?;
    // Nine pairs.
    refused(&rt, &[0; 36], Refusal::SpanBytes(36))?;
    refused(&rt, &[0; 32], Refusal::SpanPair(0))
}

#[test]
fn the_high_byte_comes_first(rt: HostRuntime) {
    let mut heard = Erased::new(Even {
        places: 1_000,
        each: 1,
    });
    assert_eq!(rt; heard.set_spans(&[1, 2, 2, 3]), Ok(()));
    // From 258 on, 515 places.
    assert_eq!(rt; heard.cost(257, 0), 1);
    assert_eq!(rt; heard.cost(258, 0), 0);
    assert_eq!(rt; heard.cost(772, 0), 0);
    assert_eq!(rt; heard.cost(773, 0), 1);
}

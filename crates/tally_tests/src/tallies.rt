// What is counted, what is not, and the noise figure.
use refusal::Refusal;
use tally::Tally;

// How many were answered and tied, what they cost, and whether the tally is full.
fn counts(tally: &Tally) -> (u32, u32, u64, bool) {
    (
        tally.answered(),
        tally.tied(),
        tally.cost(),
        tally.is_full(),
    )
}

#[test]
fn fresh(rt: HostRuntime) {
    let tally = Tally::new();
    assert_eq!(rt; counts(&tally), (0, 0, 0, false));
    assert_eq!(rt; tally.noise_figure(), Err(Refusal::NoneAnswered));
}

#[test]
fn answered(rt: HostRuntime) {
    let mut tally = Tally::new();
    assert!(rt; tally.add_answered(0));
    assert_eq!(rt; counts(&tally), (1, 0, 0, false));
    assert_eq!(rt; tally.noise_figure(), Ok(0));
    assert!(rt; tally.add_answered(1_572_840));
    assert_eq!(rt; counts(&tally), (2, 0, 1_572_840, false));
    assert_eq!(rt; tally.noise_figure(), Ok(786_420_000));
}

#[test]
fn tied(rt: HostRuntime) {
    let mut tally = Tally::new();
    assert!(rt; tally.add_tied());
    assert!(rt; tally.add_tied());
    assert_eq!(rt; counts(&tally), (0, 2, 0, false));
    assert_eq!(rt; tally.noise_figure(), Err(Refusal::NoneAnswered));
    assert!(rt; tally.add_answered(5));
    assert_eq!(rt; counts(&tally), (1, 2, 5, false));
    assert_eq!(rt; tally.noise_figure(), Ok(5_000));
}

#[test]
fn costs_that_no_decoding_has(rt: HostRuntime) {
    let mut tally = Tally::new();
    assert!(rt; tally.add_answered(7));
    let before = tally;
    assert!(rt; !tally.add_answered(1_572_841));
    assert!(rt; !tally.add_answered(u32::MAX));
    assert_eq!(rt; tally, before);
    assert_eq!(rt; counts(&tally), (1, 0, 7, false));
}

#[test]
fn figures(rt: HostRuntime) {
    let mut tally = Tally::new();
    assert!(rt; tally.add_answered(1));
    assert_eq!(rt; tally.noise_figure(), Ok(1_000));
    assert!(rt; tally.add_answered(2));
    for _ in 2..16 {
        assert!(rt; tally.add_answered(0));
    }
    assert_eq!(rt; counts(&tally), (16, 0, 3, false));
    assert_eq!(rt; tally.noise_figure(), Ok(187));
}

#[test]
fn copies_count_by_themselves(rt: HostRuntime) {
    let mut tally = Tally::new();
    assert!(rt; tally.add_answered(4));
    let before = tally;
    assert!(rt; tally.add_tied());
    assert_eq!(rt; counts(&before), (1, 0, 4, false));
    assert_eq!(rt; counts(&tally), (1, 1, 4, false));
}

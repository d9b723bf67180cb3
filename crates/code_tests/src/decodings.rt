// Decoding, leaders, distances and the tally, on examples.
use crate::readings::drafted;
use code::Code;
use field::{Field, Sixteen, Three, Two};
use reception::{Combined, Erased, HardWord, LevelWord, Reception};
use refusal::Refusal;
use std::process::Abort;
use std::test::Fail;

// Work memory that is not clear, of more words than are needed.
const WORK: [u32; 200] = [9; 200];

fn five() -> Result<Code<Two>, Refusal> {
    Ok(drafted::<Two, 5>(&[[1, 0, 1, 0, 1], [0, 1, 1, 1, 0]])?.seal())
}

// What is decoded into a message of K symbols; the work memory has to be clear afterwards.
fn decoded<F: Field, R: Reception, const K: usize>(
    rt: &impl Abort,
    code: &mut Code<F>,
    heard: &R,
) -> (Result<u32, Refusal>, [u8; K]) {
    let mut work = WORK;
    let mut message = [7; K];
    let answer = code.decode(heard, &mut work, &mut message);
    assert_eq!(rt; work, [0; 200]);
    (answer, message)
}

#[test]
fn hard_words_and_a_tie(rt: HostRuntime) -> Result<(), Fail> {
    let mut code = five()?;
    assert_eq!(rt; code.noise_figure(), Err(Refusal::NoneAnswered));
    let answer = decoded::<Two, HardWord, 2>(&rt, &mut code, &HardWord::new(&[1, 0, 1, 0, 0]));
    assert_eq!(rt; answer, (Ok(1), [1, 0]));
    let answer = decoded::<Two, HardWord, 2>(&rt, &mut code, &HardWord::new(&[1, 1, 0, 0, 0]));
    assert_eq!(rt; answer, (Err(Refusal::Tied(2)), [7, 7]));
    let tally = code.tally();
    assert_eq!(rt; (tally.answered(), tally.tied(), tally.cost()), (1, 1, 1));
    assert_eq!(rt; code.noise_figure(), Ok(1_000));
    code.clear_tally();
    assert_eq!(rt; code.tally().answered(), 0);
    Ok(())
}

#[test]
fn erased_and_combined(rt: HostRuntime) -> Result<(), Fail> {
    let mut code = five()?;
    let first = [1, 1, 0, 0, 0];
    let mut marked = Erased::new(HardWord::new(&first));
    marked.set_spans(&[0, 0, 0, 1])?;
    assert_eq!(rt;
        decoded::<Two, Erased<HardWord>, 2>(&rt, &mut code, &marked),
        (Ok(1), [0, 0])
    );
    let both = Combined::new(HardWord::new(&first), HardWord::new(&[0, 1, 0, 0, 0]));
    let answer = decoded::<Two, Combined<HardWord, HardWord>, 2>(&rt, &mut code, &both);
    assert_eq!(rt; answer, (Ok(3), [0, 0]));
    Ok(())
}

#[test]
fn levels_and_bytes_that_are_no_symbols(rt: HostRuntime) -> Result<(), Fail> {
    let mut code = drafted::<Two, 3>(&[[1, 1, 1]])?.seal();
    let answer = decoded::<Two, LevelWord, 1>(&rt, &mut code, &LevelWord::new(&[3, 3, 7]));
    assert_eq!(rt; answer, (Ok(8), [1]));
    let answer = decoded::<Two, HardWord, 1>(&rt, &mut code, &HardWord::new(&[1, 1, 255]));
    assert_eq!(rt; answer, (Ok(1), [1]));
    Ok(())
}

#[test]
fn the_field_of_three(rt: HostRuntime) -> Result<(), Fail> {
    let mut code = drafted::<Three, 4>(&[[1, 0, 1, 1], [0, 1, 1, 2]])?.seal();
    let answer = decoded::<Three, HardWord, 2>(&rt, &mut code, &HardWord::new(&[1, 1, 2, 1]));
    assert_eq!(rt; answer, (Ok(1), [1, 1]));
    let mut work = WORK;
    assert_eq!(rt; code.distance(&mut work), Ok(Some(3)));
    assert_eq!(rt; work, [0; 200]);
    Ok(())
}

fn leader(rt: &impl Abort, index: usize) -> Result<((u32, bool), [u8; 5]), Fail> {
    let mut work = WORK;
    let mut out = [7; 5];
    let answer = five()?.leader(index, &mut work, &mut out)?;
    assert_eq!(rt; work, [0; 200]);
    Ok((answer, out))
}

#[test]
fn leaders(rt: HostRuntime) -> Result<(), Fail> {
    assert_eq!(rt; leader(&rt, 0)?, ((0, true), [0, 0, 0, 0, 0]));
    assert_eq!(rt; leader(&rt, 3)?, ((2, false), [1, 1, 0, 0, 0]));
    assert_eq!(rt; leader(&rt, 6)?, ((1, true), [0, 1, 0, 0, 0]));
    Ok(())
}

#[test]
fn refusals_of_decoding_in_order(rt: HostRuntime) -> Result<(), Fail> {
    let mut code = five()?;
    let mut work = WORK;
    let mut long = [7; 3];
    let short = HardWord::new(&[1, 0, 1, 0]);
    let answer = code.decode(&short, &mut work[0..95], &mut long);
    assert_eq!(rt; answer, Err(Refusal::WrongLength(5)));
    let heard = HardWord::new(&[1, 0, 1, 0, 0]);
    let answer = code.decode(&heard, &mut work[0..95], &mut long);
    assert_eq!(rt; answer, Err(Refusal::WorkMemory(96)));
    let answer = code.decode(&heard, &mut work[0..96], &mut long);
    assert_eq!(rt; answer, Err(Refusal::BufferLength(2)));
    assert_eq!(rt; work, WORK);
    assert_eq!(rt; long, [7; 3]);
    assert_eq!(rt; code.tally().answered() + code.tally().tied(), 0);
    Ok(())
}

#[test]
fn refusals_of_leaders_in_order(rt: HostRuntime) -> Result<(), Fail> {
    let code = five()?;
    let mut work = WORK;
    let mut short = [7; 4];
    let answer = code.leader(8, &mut work[0..95], &mut short);
    assert_eq!(rt; answer, Err(Refusal::WorkMemory(96)));
    let answer = code.leader(8, &mut work, &mut short);
    assert_eq!(rt; answer, Err(Refusal::BufferLength(5)));
    let mut out = [7; 5];
    let answer = code.leader(8, &mut work, &mut out);
    assert_eq!(rt; answer, Err(Refusal::Index(8)));
    assert_eq!(rt; work, WORK);
    assert_eq!(rt; out, [7; 5]);
    Ok(())
}

#[test]
fn too_many_cosets(rt: HostRuntime) -> Result<(), Fail> {
    let mut code = drafted::<Sixteen, 4>(&[])?.seal();
    let mut work = [9; 1];
    let answer = code.decode(&HardWord::new(&[0; 4]), &mut work, &mut []);
    assert_eq!(rt; answer, Err(Refusal::Cosets(4)));
    assert_eq!(rt; code.leader(0, &mut work, &mut []), Err(Refusal::Cosets(4)));
    assert_eq!(rt; code.distance(&mut work), Err(Refusal::Cosets(4)));
    assert_eq!(rt; work, [9]);
    Ok(())
}

#[test]
fn without_message_symbols(rt: HostRuntime) -> Result<(), Fail> {
    let mut code = drafted::<Three, 3>(&[])?.seal();
    let mut work = [9; 216];
    assert_eq!(rt;
        code.distance(&mut work[0..215]),
        Err(Refusal::WorkMemory(216))
    );
    assert_eq!(rt; work, [9; 216]);
    assert_eq!(rt; code.distance(&mut work), Ok(None));
    assert_eq!(rt; work, [0; 216]);
    let answer = code.decode(&HardWord::new(&[0, 2, 1]), &mut work, &mut []);
    assert_eq!(rt; answer, Ok(2));
    Ok(())
}

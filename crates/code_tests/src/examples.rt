// Small codes, worked by hand.
use crate::readings::{check_row, codeword, drafted, reduced_row};
use code::Draft;
use field::{Four, Sixteen, Three, Two};
use refusal::Refusal;
use std::test::Fail;

#[test]
fn two_symbols(rt: HostRuntime) -> Result<(), Fail> {
    let mut draft = Draft::<Two>::new();
    draft.set_length(5)?;
    assert_eq!(rt; draft.push_row(&[1, 0, 1, 0, 1]), Ok(1));
    assert_eq!(rt; draft.push_row(&[0, 1, 1, 1, 0]), Ok(2));
    let Err(refusal) = draft.push_row(&[1, 1, 0, 1, 1]) else {
        return Err(Fail::new("a dependent row is held"));
    };
    assert_eq!(rt; refusal, Refusal::Dependent(2));
    assert_eq!(rt; refusal.number(), 6);
    assert_eq!(rt; draft.count(), 2);
    Ok(())
}

#[test]
fn three_symbols(rt: HostRuntime) -> Result<(), Fail> {
    let code = drafted::<Three, 4>(&[[1, 0, 1, 1], [0, 1, 1, 2]])?.seal();
    assert_eq!(rt; code.length(), 4);
    assert_eq!(rt; code.dimension(), 2);
    assert_eq!(rt; reduced_row(&code, 0), Ok(([1, 0, 1, 1], 0)));
    assert_eq!(rt; reduced_row(&code, 1), Ok(([0, 1, 1, 2], 1)));
    assert_eq!(rt; check_row(&code, 0), Ok([2, 2, 1, 0]));
    assert_eq!(rt; check_row(&code, 1), Ok([2, 1, 0, 1]));
    Ok(())
}

#[test]
fn four_symbols(rt: HostRuntime) -> Result<(), Fail> {
    let code = drafted::<Four, 3>(&[[1, 0, 2], [2, 3, 1]])?.seal();
    assert_eq!(rt; reduced_row(&code, 0), Ok(([1, 0, 2], 0)));
    assert_eq!(rt; reduced_row(&code, 1), Ok(([0, 1, 3], 1)));
    assert_eq!(rt; codeword(&code, &[3, 1]), Ok([3, 1, 2]));
    Ok(())
}

#[test]
fn sixteen_symbols(rt: HostRuntime) -> Result<(), Fail> {
    let code = drafted::<Sixteen, 2>(&[[2, 1]])?.seal();
    assert_eq!(rt; code.dimension(), 1);
    assert_eq!(rt; reduced_row(&code, 0), Ok(([1, 9], 0)));
    Ok(())
}

// Codes without rows and with as many as there are places, rows withdrawn, and columns of zeros.
use crate::readings::{check_row, codeword, drafted, reduced_row};
use code::Draft;
use field::{Four, Sixteen, Three};
use refusal::Refusal;
use std::array;
use std::test::Fail;

#[test]
fn without_rows(rt: HostRuntime) -> Result<(), Fail> {
    let code = drafted::<Four, 3>(&[])?.seal();
    assert_eq!(rt; code.length(), 3);
    assert_eq!(rt; code.dimension(), 0);
    assert_eq!(rt; codeword(&code, &[]), Ok([0, 0, 0]));
    let units = [[1, 0, 0], [0, 1, 0], [0, 0, 1]];
    for (i, unit) in units.iter().enumerate() {
        assert_eq!(rt; check_row(&code, i), Ok(*unit));
    }
    let answer = code.reduced_row(0, &mut [0; 3]);
    assert_eq!(rt; answer, Err(Refusal::Index(0)));
    Ok(())
}

#[test]
fn as_many_rows_as_places(rt: HostRuntime) -> Result<(), Fail> {
    let code = drafted::<Three, 2>(&[[1, 2], [2, 2]])?.seal();
    assert_eq!(rt; code.dimension(), 2);
    assert_eq!(rt; reduced_row(&code, 0), Ok(([1, 0], 0)));
    assert_eq!(rt; reduced_row(&code, 1), Ok(([0, 1], 1)));
    let answer = code.check_row(0, &mut [0; 2]);
    assert_eq!(rt; answer, Err(Refusal::Index(0)));
    for a in 0..3 {
        for b in 0..3 {
            assert_eq!(rt; codeword(&code, &[a, b]), Ok([a, b]));
        }
    }
    Ok(())
}

// The word of length 24 with 1 at the place i and 0 elsewhere.
fn unit(i: usize) -> [u8; 24] {
    array::from_fn(|p| u8::from(p == i))
}

#[test]
fn unit_rows(rt: HostRuntime) -> Result<(), Fail> {
    let mut draft = Draft::<Sixteen>::new();
    draft.set_length(24)?;
    for (held, i) in (0..24).rev().enumerate() {
        assert_eq!(rt; draft.push_row(&unit(i)), Ok(held + 1));
    }
    let answer = draft.push_row(&[15; 24]);
    assert_eq!(rt; answer, Err(Refusal::Dependent(24)));
    let code = draft.seal();
    for i in 0..24 {
        assert_eq!(rt; reduced_row(&code, i), Ok((unit(i), i)));
    }
    let mut message = [15; 24];
    message[23] = 4;
    assert_eq!(rt; codeword(&code, &message), Ok(message));
    Ok(())
}

#[test]
fn dependent_on_the_row_withdrawn(rt: HostRuntime) -> Result<(), Fail> {
    let mut draft = drafted::<Three, 4>(&[[1, 0, 1, 1], [0, 1, 1, 2]])?;
    let dependent = Err(Refusal::Dependent(2));
    assert_eq!(rt; draft.push_row(&[1, 1, 2, 0]), dependent);
    assert_eq!(rt; draft.pop_row(), Ok(1));
    assert_eq!(rt; draft.push_row(&[1, 1, 2, 0]), Ok(2));
    assert_eq!(rt; draft.push_row(&[0, 1, 1, 2]), dependent);
    assert_eq!(rt; draft.pop_row(), Ok(1));
    assert_eq!(rt; draft.push_row(&[0, 2, 2, 1]), Ok(2));
    Ok(())
}

#[test]
fn leading_columns_of_zeros(rt: HostRuntime) -> Result<(), Fail> {
    let code = drafted::<Three, 4>(&[[0, 0, 1, 1], [0, 0, 1, 2]])?.seal();
    assert_eq!(rt; reduced_row(&code, 0), Ok(([0, 0, 1, 0], 2)));
    assert_eq!(rt; reduced_row(&code, 1), Ok(([0, 0, 0, 1], 3)));
    assert_eq!(rt; check_row(&code, 0), Ok([1, 0, 0, 0]));
    assert_eq!(rt; check_row(&code, 1), Ok([0, 1, 0, 0]));
    assert_eq!(rt; codeword(&code, &[2, 1]), Ok([0, 0, 2, 1]));
    Ok(())
}

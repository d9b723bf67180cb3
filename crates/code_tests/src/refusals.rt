// The numbers and the values of refusals, and which is told where there are several causes.
use crate::readings::drafted;
use field::Three;
use refusal::Refusal;
use std::test::Fail;

#[test]
fn numbers_and_values(rt: HostRuntime) {
    let all = [
        (Refusal::Length(25), 1, Some(25)),
        (Refusal::RowsHeld(9), 2, Some(9)),
        (Refusal::WrongLength(8), 4, Some(8)),
        (Refusal::NoSymbol(0), 5, Some(0)),
        (Refusal::Dependent(2), 6, Some(2)),
        (Refusal::NoRow, 7, None),
        (Refusal::Cosets(24), 8, Some(24)),
        (Refusal::WorkMemory(96), 9, Some(96)),
        (Refusal::BufferLength(5), 10, Some(5)),
        (Refusal::Index(3), 11, Some(3)),
        (Refusal::TallyFull, 12, None),
        (Refusal::Tied(1_572_840), 13, Some(1_572_840)),
        (Refusal::SpanBytes(6), 16, Some(6)),
        (Refusal::SpanPair(0), 17, Some(0)),
        (Refusal::NoneAnswered, 18, None),
    ];
    for (refusal, number, value) in all {
        assert_eq!(rt; refusal.number(), number);
        assert_eq!(rt; refusal.value(), value);
    }
}

#[test]
fn several_causes_at_a_draft(rt: HostRuntime) -> Result<(), Fail> {
    let mut draft = drafted::<Three, 4>(&[[1, 0, 1, 1]])?;
    assert_eq!(rt; draft.set_length(0), Err(Refusal::Length(0)));
    assert_eq!(rt; draft.set_length(25), Err(Refusal::Length(25)));
    let wrong = Err(Refusal::WrongLength(4));
    assert_eq!(rt; draft.push_row(&[3, 0, 0]), wrong);
    assert_eq!(rt; draft.push_row(&[0; 5]), wrong);
    // Were the 3 a 0, or the 4 a 1, the row would be dependent.
    assert_eq!(rt; draft.push_row(&[3, 0, 0, 0]), Err(Refusal::NoSymbol(0)));
    assert_eq!(rt; draft.push_row(&[1, 0, 1, 4]), Err(Refusal::NoSymbol(3)));
    Ok(())
}

#[test]
fn rows_held_and_rows_withdrawn(rt: HostRuntime) -> Result<(), Fail> {
    let mut draft = drafted::<Three, 2>(&[[0, 2]])?;
    assert_eq!(rt; draft.set_length(3), Err(Refusal::RowsHeld(1)));
    assert_eq!(rt; draft.pop_row(), Ok(0));
    assert_eq!(rt; draft.pop_row(), Err(Refusal::NoRow));
    assert_eq!(rt; draft.length(), 2);
    assert_eq!(rt; draft.set_length(3), Ok(()));
    Ok(())
}

#[test]
fn several_causes_at_a_code(rt: HostRuntime) -> Result<(), Fail> {
    let code = drafted::<Three, 4>(&[[1, 0, 1, 1]])?.seal();
    let mut short = [7; 3];
    let answer = code.encode(&[3, 3], &mut short);
    assert_eq!(rt; answer, Err(Refusal::WrongLength(1)));
    let answer = code.encode(&[3], &mut short);
    assert_eq!(rt; answer, Err(Refusal::NoSymbol(0)));
    let answer = code.reduced_row(1, &mut short);
    assert_eq!(rt; answer, Err(Refusal::BufferLength(4)));
    let answer = code.check_row(3, &mut short);
    assert_eq!(rt; answer, Err(Refusal::BufferLength(4)));
    assert_eq!(rt; short, [7; 3]);
    Ok(())
}

// Codes with rows that look random: their codewords, check rows and information places agree.
use crate::readings::{check_row, codeword, reduced_row};
use code::{Code, Draft};
use field::{Field, Four, Sixteen, Three, Two};
use sampling::{Numbers, inner_product};
use std::process::Abort;
use std::test::Fail;

// What a word carries at the information places of a code with two rows.
fn carried<F: Field>(rt: &impl Abort, code: &Code<F>, word: &[u8; 6]) -> Result<[u8; 2], Fail> {
    let mut message = [0; 2];
    for (j, symbol) in message.iter_mut().enumerate() {
        let (_, place) = reduced_row::<F, 6>(code, j)?;
        assert!(rt; place < 6);
        *symbol = word[place];
    }
    Ok(message)
}

// Checks that the codeword of a message carries it, and is orthogonal to each check row.
fn encodes<F: Field>(rt: &impl Abort, code: &Code<F>, message: [u8; 2]) -> Result<(), Fail> {
    let word = codeword(code, &message)?;
    assert_eq!(rt; carried(rt, code, &word)?, message);
    for i in 0..4 {
        let row: [u8; 6] = check_row(code, i)?;
        assert_eq!(rt; inner_product::<F>(&word, &row), 0);
    }
    Ok(())
}

// Checks all codewords of the code with these rows, and that the rows are codewords.
fn agrees<F: Field>(rt: &impl Abort, code: &Code<F>, rows: [[u8; 6]; 2]) -> Result<(), Fail> {
    for row in rows {
        assert_eq!(rt; codeword(code, &carried(rt, code, &row)?), Ok(row));
    }
    for a in 0..F::order() {
        for b in 0..F::order() {
            encodes(rt, code, [a, b])?;
        }
    }
    Ok(())
}

// Draws 40 pairs of rows; most are independent.
fn samples_agree<F: Field>(rt: &impl Abort) -> Result<(), Fail> {
    let mut numbers = Numbers::after(1);
    let mut codes = 0u8;
    for _ in 0..40 {
        let rows = [numbers.word(F::order()), numbers.word(F::order())];
        let mut draft = Draft::<F>::new();
        draft.set_length(6)?;
        for row in &rows {
            let _ = draft.push_row(row);
        }
        if draft.count() == 2 {
            agrees(rt, &draft.seal(), rows)?;
            codes = codes.saturating_add(1);
        }
    }
    assert!(rt; codes >= 30);
    Ok(())
}

#[test]
fn samples(rt: HostRuntime) -> Result<(), Fail> {
    samples_agree::<Two>(&rt)?;
    samples_agree::<Three>(&rt)?;
    samples_agree::<Four>(&rt)?;
    samples_agree::<Sixteen>(&rt)
}

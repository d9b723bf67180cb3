// Codes made of rows, and what is read of them, as values that a test can compare.
use code::{Code, Draft};
use field::Field;
use refusal::Refusal;

// A draft of the length of these rows that holds them.
pub(crate) fn drafted<F: Field, const N: usize>(rows: &[[u8; N]]) -> Result<Draft<F>, Refusal> {
    let mut draft = Draft::new();
    draft.set_length(N)?;
    for row in rows {
        draft.push_row(row)?;
    }
    Ok(draft)
}

// The check row i.
pub(crate) fn check_row<F: Field, const N: usize>(
    code: &Code<F>,
    i: usize,
) -> Result<[u8; N], Refusal> {
    let mut out = [255; N];
    code.check_row(i, &mut out)?;
    Ok(out)
}

// The reduced row i, and its information place.
pub(crate) fn reduced_row<F: Field, const N: usize>(
    code: &Code<F>,
    i: usize,
) -> Result<([u8; N], usize), Refusal> {
    let mut out = [255; N];
    let place = code.reduced_row(i, &mut out)?;
    Ok((out, place))
}

// The codeword of a message.
pub(crate) fn codeword<F: Field, const N: usize>(
    code: &Code<F>,
    message: &[u8],
) -> Result<[u8; N], Refusal> {
    let mut out = [255; N];
    code.encode(message, &mut out)?;
    Ok(out)
}

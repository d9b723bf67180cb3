// Elimination, and the syndromes of a generator.
use field::Three;
use generator::Generator;
use linear::elimination::reduce;

#[test]
fn no_symbols_count_as_zero(rt: HostRuntime) {
    let mut rows = [[0; 24]; 3];
    rows[0][0..4].copy_from_slice(&[255, 3, 2, 1]);
    rows[1] = [4; 24];
    rows[2][0..4].copy_from_slice(&[2, 4, 1, 5]);
    let echelon = reduce::<Three>(&mut rows);
    assert_eq!(rt; echelon.rank, 2);
    assert_eq!(rt; echelon.places[0], 0);
    assert_eq!(rt; echelon.places[1], 2);
    let mut reduced = [[0; 24]; 3];
    reduced[0][0..4].copy_from_slice(&[1, 0, 0, 2]);
    reduced[1][0..4].copy_from_slice(&[0, 0, 1, 2]);
    assert_eq!(rt; rows, reduced);
}

// The generator of the rows 1011 and 0112 over the field of 3.
fn generator() -> Generator {
    let mut rows = [[0; 24]; 24];
    rows[0][0..4].copy_from_slice(&[1, 0, 1, 1]);
    rows[1][0..4].copy_from_slice(&[0, 1, 1, 2]);
    Generator::of_rows::<Three>(&rows, 2, 4)
}

// The codewords of the messages, by the generator.
fn codewords(generator: &Generator) -> [[u8; 4]; 9] {
    let mut words = [[0; 4]; 9];
    for (m, word) in (0..9u8).zip(words.iter_mut()) {
        generator.encode::<Three>(&[m / 3, m % 3], word);
    }
    words
}

#[test]
fn syndromes_of_codewords(rt: HostRuntime) {
    let generator = generator();
    let codewords = codewords(&generator);
    let mut zeros = 0u8;
    for w in 0..81u8 {
        let word = [w / 27, w / 9 % 3, w / 3 % 3, w % 3];
        let zero = generator.syndrome_index::<Three>(&word) == 0;
        assert_eq!(rt; zero, codewords.contains(&word));
        zeros = zeros.saturating_add(u8::from(zero));
    }
    assert_eq!(rt; zeros, 9);
}

#[test]
fn syndromes_of_other_words(rt: HostRuntime) {
    let generator = generator();
    assert_eq!(rt; generator.syndrome_index::<Three>(&[0, 0, 0, 1]), 1);
    assert_eq!(rt; generator.syndrome_index::<Three>(&[1, 0, 0, 1]), 6);
    assert_eq!(rt; generator.syndrome_index::<Three>(&[0, 2, 1, 2]), 7);
}

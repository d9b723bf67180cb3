// The fields on examples, and against tables that are made another way.
#![tactic(auto)]

#[cfg(test)]
mod tests {
    use field::{Field, Four, Sixteen, Three, Two};
    use std::process::Abort;

    // The powers 0 to 14 of α, where α⁴ = α + 1.
    fn powers() -> [u8; 15] {
        let mut all = [0; 15];
        let mut power: u8 = 1;
        for place in &mut all {
            *place = power;
            power <<= 1;
            if power >= 16 {
                power ^= 0b1_0011;
            }
        }
        all
    }

    #[test]
    fn sixteen_is_zero_and_the_powers(rt: HostRuntime) {
        let powers = powers();
        for power in powers {
            assert!(rt; power < 16);
        }
        for symbol in 1..16 {
            assert!(rt; powers.contains(&symbol));
        }
        assert!(rt; !powers.contains(&0));
    }

    #[test]
    fn sixteen_by_powers(rt: HostRuntime) {
        let powers = powers();
        for (i, a) in powers.iter().enumerate() {
            for (j, b) in powers.iter().enumerate() {
                assert_eq!(rt; Sixteen::sum(*a, *b), *a ^ *b);
                assert_eq!(rt; Sixteen::product(*a, *b), powers[(i + j) % 15]);
            }
        }
        for a in 0..16 {
            assert_eq!(rt; Sixteen::sum(0, a), a);
            assert_eq!(rt; Sixteen::sum(a, 0), a);
            assert_eq!(rt; Sixteen::product(0, a), 0);
            assert_eq!(rt; Sixteen::product(a, 0), 0);
        }
        assert_eq!(rt; Sixteen::product(2, 9), 1);
    }

    #[test]
    fn four_by_table(rt: HostRuntime) {
        let sums = [[0, 1, 2, 3], [1, 0, 3, 2], [2, 3, 0, 1], [3, 2, 1, 0]];
        let products = [[0, 0, 0, 0], [0, 1, 2, 3], [0, 2, 3, 1], [0, 3, 1, 2]];
        for (a, row) in (0..4).zip(sums) {
            for (b, sum) in (0..4).zip(row) {
                assert_eq!(rt; Four::sum(a, b), sum);
            }
        }
        for (a, row) in (0..4).zip(products) {
            for (b, product) in (0..4).zip(row) {
                assert_eq!(rt; Four::product(a, b), product);
            }
        }
    }

    fn answers_zero_past_the_order<F: Field>(rt: &impl Abort) {
        for number in F::order() as u16..256 {
            let a = number as u8;
            assert_eq!(rt; F::sum(a, 1), 0);
            assert_eq!(rt; F::sum(1, a), 0);
            assert_eq!(rt; F::negative(a), 0);
            assert_eq!(rt; F::product(a, 1), 0);
            assert_eq!(rt; F::product(1, a), 0);
            assert_eq!(rt; F::inverse(a), 0);
        }
    }

    #[test]
    fn no_symbols(rt: HostRuntime) {
        answers_zero_past_the_order::<Two>(&rt);
        answers_zero_past_the_order::<Three>(&rt);
        answers_zero_past_the_order::<Four>(&rt);
        answers_zero_past_the_order::<Sixteen>(&rt);
    }

    fn has_inverses<F: Field>(rt: &impl Abort) {
        for a in 1..F::order() {
            assert_eq!(rt; F::product(a, F::inverse(a)), 1);
        }
        assert_eq!(rt; F::inverse(0), 0);
    }

    #[test]
    fn inverses(rt: HostRuntime) {
        has_inverses::<Two>(&rt);
        has_inverses::<Three>(&rt);
        has_inverses::<Four>(&rt);
        has_inverses::<Sixteen>(&rt);
    }
}

// The cheapest words of a coset, and the lightest codewords: the definitions that contracts cite
// (specs/), and that the least costs over a trellis find them (proofs/). There is no code here, so
// that no change of code makes the laws be proved again.
#![tactic(auto)]

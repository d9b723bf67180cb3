// Linear algebra over any field: the definitions that contracts cite (specs/) and the laws that
// follow from the laws of a field (proofs/). There is no code here, so that no change of code
// makes the laws be proved again.
#![tactic(auto)]

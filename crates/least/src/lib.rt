// The least cost of the words that lead over the states of a trellis, and how many words have it:
// the definitions that contracts cite (specs/) and their laws (proofs/). There is no code here, so
// that no change of code makes the laws be proved again.
#![tactic(auto)]

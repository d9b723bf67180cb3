// Theory without code: cosets, the states of a walk over the places of a word, and weights.
#![tactic(auto)]

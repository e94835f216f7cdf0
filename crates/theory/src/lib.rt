// What follows from the definitions of `model`, for the proofs of the code and of the demands. It has no
// code.
#![tactic(auto)]

// The proofs of what `model` states: the three demands, what each call does and looks at, the further laws,
// and that wrong machines break them. It has no code, and no crate stands on it.
#![tactic(auto)]

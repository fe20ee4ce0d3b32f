// The logic cell (document 01, 'Cells' and 'The list and a step'): its settings, lookup, carry and flip-flop. Nothing here
// knows of tiles, wires or bits.
//
// `lookup` is an entry point and has no `requires`. The functions below it take values that are 0 or 1, as every wire's is.
// Callers cite the laws of proofs/.
#![tactic(auto)]

pub mod flip_flop;
pub mod logic;

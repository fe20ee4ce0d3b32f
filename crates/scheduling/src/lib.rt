// The order of a block's rows (document 01, 'The list and a step'), or the lowest wire that depends on itself, which `loops` finds (ground 7).
//
// Rows come by wire (row w is that of wire w) and go out in order. The functions have a `requires` where a caller inside the
// repository has the fact at hand; none is an entry point.
#![tactic(auto)]

mod order;
pub mod schedule;

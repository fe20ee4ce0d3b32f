// A list of rows, one for each wire (document 01, 'The list and a step'): running it, and the check of a list that someone lent. What the order of
// the rows is, and a loop, is defined here; `scheduling` finds the order, `loops` the place of a loop. Nothing here knows of tiles or ports: a wire
// is an index, and the rows say what it reads.
//
// The functions have a `requires` where a caller inside the repository has the fact at hand; none is an entry point.
#![tactic(auto)]

pub mod check;
pub mod row;
pub mod row_check;
pub mod run;

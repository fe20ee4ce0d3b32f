// The lent routing table of logic tiles (document 01, 'The routing table'): its layout, which ports a switch may join, where the
// cells' bits stand, and ground 3, the first part that breaks a rule. Nothing here reads a tile's bits or knows of wires.
//
// A function's `requires` is the table's exact length and indices that are in range; `rules::faulty_part` asks for the length alone.
#![tactic(auto)]

pub mod cells;
mod claims;
pub mod ends;
mod groups;
pub mod rules;
pub mod slots;
pub mod table;

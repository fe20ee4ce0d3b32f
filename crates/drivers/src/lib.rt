// Who drives each wire of a block (document 01, 'Cells' and grounds 5, 6 and 8): the switch that ends on it, where following leads, and
// which clocks come from a cell. Nothing here reads values.
//
// The functions ask for what the checks before them show: a routed table with settings (`Routed`), and maps as specs/ of `equations`
// define them. Callers cite the laws of proofs/FollowingLaws.antt, CarryReadLaws.antt and ClockLaws.antt.
#![tactic(auto)]

pub mod carry;
pub mod clocks;
pub mod follow;
pub mod sources;

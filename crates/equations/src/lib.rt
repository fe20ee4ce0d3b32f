// The equations of a block as rows, one for each wire (document 01, 'Cells' and 'The list and a step'): what drives a wire, and
// the row of each wire. Nothing here knows of the order of rows, of running them, or of refusals.
//
// Every function asks for a block of a right size and settings of a right length. The contracts cite specs/; that the rows say what the
// equations say is in proofs/EqualLaws.antt and proofs/SettlingLaws.antt.
#![tactic(auto)]

pub mod cell_rows;
pub mod drives;
pub mod rows;
pub mod tiles;

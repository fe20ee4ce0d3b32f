// The parts of a logic tile: its 864 bits, and the cells, groups and fields that they set, each from the other (document 01, 'The routing table' and
// 'Cells'). Nothing here knows of blocks, wires or refusals; `tile` reads and writes a whole tile.
//
// specs/Reading.antt says reading sentence by sentence, and proofs/ReadingLaws.antt that this is what is computed.
#![tactic(auto)]

pub mod bits;
pub mod cells;
pub mod fault;
pub mod groups;
pub mod held;
pub mod settings;

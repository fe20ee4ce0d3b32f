// The frames on lines (document 01, 'Frames and one whole run'): reading an input of frames.
//
// An input is read whole or not at all: `input::parse` answers the block's size, or the first line that is not as it should be (ground 11), or
// ground 1 on reading the block frame. `contents` then fills a routing table and the tiles' bits. Nothing here knows what a block means.
#![tactic(auto)]

pub mod contents;
pub mod input;
pub mod lines;

// The lines of a report (document 01, 'Frames and one whole run'): 06, 07 and 08 as bytes, and those of an accepted block put one behind the other.
#![tactic(auto)]

pub mod listing;
pub mod text;

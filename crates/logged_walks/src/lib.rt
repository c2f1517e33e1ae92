//! A log that some schedule has fits: its calls could be made in the order of their records, and its paths are walks of the
//! image.
#![tactic(auto)]

pub mod law;

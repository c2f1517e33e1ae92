//! Worked rows of what a log alone tells: walks, faults, calls that fit, and recorded orders. There is nothing here but
//! tests, of what no contract says: that the calls succeed with ample memory, and that the definitions mean what the
//! formats say.
#![tactic(auto)]

#[cfg(test)]
mod orders;
#[cfg(test)]
mod walks;

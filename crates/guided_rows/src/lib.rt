//! Worked rows of guided walks: whole programs with their logs, and whether the bytes and outcomes of the run of a schedule
//! make a guided walk that fits a schedule. There is nothing here but tests, of what no contract says: that the plain program
//! answers, with ample memory, and that the definitions mean what they are to mean.
#![tactic(auto)]

#[cfg(test)]
mod logs;
#[cfg(test)]
mod steps;

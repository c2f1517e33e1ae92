//! Worked rows of the program: words and files go in, a status, lines and files come out, as the formats say. There is
//! nothing here but tests, of what no contract says: that calls succeed with ample memory, and what they print.
#![tactic(auto)]

#[cfg(test)]
mod assembly;
#[cfg(test)]
mod inference;
#[cfg(test)]
mod recording;
#[cfg(test)]
mod replaying;
#[cfg(test)]
mod row;
#[cfg(test)]
mod words;

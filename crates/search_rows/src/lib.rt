//! Worked rows of the search and of the verdict on derivations. There is nothing here but tests: calls succeed with
//! ample memory, which no contract says, answers are those that were told or that trying all assignments gives, and
//! verdicts those of a unit rule that scans all clauses again and again.
#![tactic(auto)]

#[cfg(test)]
mod answers;
#[cfg(test)]
mod edits;
#[cfg(test)]
mod formulas;
#[cfg(test)]
mod plain;
#[cfg(test)]
mod verdicts;

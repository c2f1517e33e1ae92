//! Worked rows of terms in bits: each operation over variables whose literals are given by unit clauses. The values were
//! worked out on whole numbers from the formulas of SMT-LIB's FixedSizeBitVectors and QF_BV. There is nothing here but
//! tests: calls succeed with ample memory, which no contract says, and the unit rule leaves each term the value of
//! the formulas.
#![tactic(auto)]

#[cfg(test)]
mod arithmetic;
#[cfg(test)]
mod binary;
#[cfg(test)]
mod circuit;
#[cfg(test)]
mod logic;
#[cfg(test)]
mod nodes;
#[cfg(test)]
mod shifts;
#[cfg(test)]
mod unit_rule;

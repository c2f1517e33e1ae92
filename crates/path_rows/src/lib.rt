//! Worked rows of symbolic paths: whether the constraints of a log are met exactly where the walk of its program holds, and
//! whether accesses and registers at the end are those of the walk. There is nothing here but tests, of what no contract says:
//! that paths are made, with ample memory, and that the definitions mean what they are to mean.
#![tactic(auto)]

#[cfg(test)]
mod divide;
#[cfg(test)]
mod shown;
#[cfg(test)]
mod symbolic;
#[cfg(test)]
mod terms;

//! Worked rows of racing accesses: what of a log's accesses is listed and what is seen. There is nothing here but tests,
//! of what no contract says: that the calls succeed with ample memory, and that the definitions mean what they are to
//! mean, beside the trial of every order.
#![tactic(auto)]

#[cfg(test)]
mod lists;
#[cfg(test)]
mod rows;
#[cfg(test)]
mod shapes;
#[cfg(test)]
mod trials;

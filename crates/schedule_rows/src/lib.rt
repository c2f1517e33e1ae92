//! Worked schedules of decided pairs of steps. There is nothing here but tests, of what no contract says: that weaving succeeds
//! with ample memory, and how long it goes on with one thread.
#![tactic(auto)]

#[cfg(test)]
mod fitting;
#[cfg(test)]
mod rows;

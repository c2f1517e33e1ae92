//! The formulas of worked logs. There is nothing here but tests, of what no contract says: that formulas are built with ample memory.
#![tactic(auto)]

#[cfg(test)]
mod built;

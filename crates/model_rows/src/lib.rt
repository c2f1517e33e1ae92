//! Worked rows of the machine: single steps, guest calls, reservations and whole runs, worked out by hand from the
//! RISC-V standard and the formats. There is nothing here but tests, of what no contract says: that the calls succeed
//! with ample memory, and that the definitions mean what the standard says.
#![tactic(auto)]

#[cfg(test)]
mod calls;
#[cfg(test)]
mod calls_in_place;
#[cfg(test)]
mod files;
#[cfg(test)]
mod hello_in_place;
#[cfg(test)]
mod instructions;
#[cfg(test)]
mod machine;
#[cfg(test)]
mod machine_edges;
#[cfg(test)]
mod recorded;
#[cfg(test)]
mod reservations;
#[cfg(test)]
mod runs;
#[cfg(test)]
mod stepping;

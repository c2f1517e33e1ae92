//! Rows on the bytes of logs: what each change of one byte of a log, and each front of it, is read as. There is nothing
//! here but tests, which compare the reader with a recogniser of the format that was written apart from it.
#![tactic(auto)]

#[cfg(test)]
mod changed_logs;
#[cfg(test)]
mod recogniser;

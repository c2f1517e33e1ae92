//! A plain machine whose contract is the definitions of `rv_model`: it keeps every write and looks each byte up among
//! them. It says what the definitions mean, and no command runs on it.
#![tactic(auto)]

pub mod act;
mod calls;
pub mod machine;
pub mod memory;
pub mod run;

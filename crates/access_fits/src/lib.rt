//! Whether what is given fits an order of accesses: what a schedule's memory and reservations are, said by accesses alone.
#![tactic(auto)]

mod law;

pub use law::{fits_by_order, schedules_fit_by_decided_order, woven_schedules_fit_by_order};

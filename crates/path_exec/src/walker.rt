//! A thread along its path.

use bv_terms::node::TermId;

/// A thread before its next step.
#[derive(Clone, Copy, Debug)]
pub struct Walker {
    /// A term for each register.
    pub registers: [TermId; 32],
    /// The place among the accesses of the last load-reserved, where no store-conditional stands after it.
    pub link: Option<u32>,
}

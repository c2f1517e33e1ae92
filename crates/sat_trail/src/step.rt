use crate::packed::Packed;

/// A literal made true: by a clause whose other literals were false before, or decided.
#[derive(Clone, Copy, Debug)]
pub struct Step {
    /// The literal.
    pub lit: Packed,
    /// The clause's number; none where the literal was decided.
    pub reason: Option<u32>,
}

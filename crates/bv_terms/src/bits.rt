//! A bit vector of 1 to 64 bits.

/// A width in bits, and the number below 2 to the power of it whose binary digits are the bits.
#[derive(Clone, Copy, Debug, PartialEq, Eq)]
pub struct Bits {
    pub width: u8,
    pub value: u64,
}

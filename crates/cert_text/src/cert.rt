use odr_list::list::List;

/// A literal of a certificate's line.
#[derive(Clone, Copy, Debug, PartialEq, Eq)]
pub enum CertLit {
    /// A step of one thread stands before a step of another; steps count from 0.
    Before {
        first_thread: u8,
        first_step: u32,
        second_thread: u8,
        second_step: u32,
    },
    /// A variable is true, or false where it isn't positive; variables count from 1.
    Var {
        number: u64,
        positive: bool,
    },
}

/// Literals of which one holds.
pub type CertLine = List<CertLit>;

/// The lines of a derivation; it is whole where it ends with the empty line, and else a part of one.
#[derive(Debug, Drop)]
pub struct Cert {
    pub whole: bool,
    pub lines: List<CertLine>,
}

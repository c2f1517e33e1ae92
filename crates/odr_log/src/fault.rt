/// Why bytes are no valid log.
#[derive(Clone, Copy, Debug, PartialEq, Eq)]
pub enum LogFault {
    /// There are more bytes than a log file may have, or they are a log of more steps than the limit.
    TooLarge,
    /// The bytes are no log. No log begins with the bytes up to and with the one at `offset`; where a log goes on
    /// behind their end, `offset` is their number.
    Bad { offset: u64 },
    /// Memory ran out.
    Memory,
}

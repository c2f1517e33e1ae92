use odr_list::memory::Memory;

/// Why a text can't be assembled. Lines are counted from 1.
#[derive(Clone, Copy, Debug, PartialEq, Eq)]
pub enum AsmFault {
    /// The least line at fault is no line of the grammar, has an operand out of its range or an offset that can't be
    /// encoded, defines a name again, or stands in the wrong part; or there is no instruction, and `line` is the
    /// number of lines plus 1.
    BadLine { line: u64 },
    /// The least line at fault has a name that no line defines.
    UnknownName { line: u64 },
    /// No line is at fault, and a part has more bytes than it may.
    TooLarge,
    /// Memory ran out.
    Memory,
}

impl From<Memory> for AsmFault {
    ghost use Rattle.rv32_asm.specs.declared.fault.AsmFault.TheVariants as fault;
    ghost use Rattle.std.specs.Prelude.{◌≡◌};

    ghost from_gives = { λ _ e. e ≡ fault.Memory };

    fn from(_memory: Memory) -> AsmFault {
        AsmFault::Memory
    }
}

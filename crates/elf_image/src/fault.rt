use odr_list::memory::Memory;

/// A check on an ELF file that fails, in the order in which they are made.
#[derive(Clone, Copy, Debug, PartialEq, Eq)]
pub enum Check {
    /// There are fewer bytes than the file header has.
    Short,
    /// The first four bytes aren't those of an ELF file.
    Magic,
    /// The file isn't one of 32 bits, little-endian, of version 1.
    Class,
    /// The file isn't an executable one.
    Kind,
    /// The machine isn't RISC-V.
    Machine,
    /// The program uses compressed instructions.
    Compressed,
    /// The table of program headers can't be read.
    Headers,
    /// The program is linked dynamically.
    Dynamic,
    /// No segment is to be loaded.
    NoLoad,
    /// More than 16 segments are to be loaded.
    TooManyLoads,
    /// A segment has bytes outside the file or addresses outside the guest's memory.
    Range,
    /// A segment may be both written and executed.
    WritableCode,
    /// Two segments share an address.
    Overlap,
    /// The segments have more than 1,048,576 bytes.
    TooLarge,
    /// The word at the entry can't be fetched.
    EntryOutside,
}

/// Why a file gives no image: the first check that fails, or want of memory.
#[derive(Clone, Copy, Debug, PartialEq, Eq)]
pub enum ElfFault {
    Short,
    Magic,
    Class,
    Kind,
    Machine,
    Compressed,
    Headers,
    Dynamic,
    NoLoad,
    TooManyLoads,
    Range,
    WritableCode,
    Overlap,
    TooLarge,
    EntryOutside,
    Memory,
}

impl From<Check> for ElfFault {
    ghost use Rattle.std.specs.Prelude.{◌≡◌, Some};
    ghost use Rattle.elf_image.specs.Fault.{check_of};

    ghost from_gives = { λ check fault. check_of fault ≡ Some check };

    fn from(check: Check) -> ElfFault {
        match check {
            Check::Short => ElfFault::Short,
            Check::Magic => ElfFault::Magic,
            Check::Class => ElfFault::Class,
            Check::Kind => ElfFault::Kind,
            Check::Machine => ElfFault::Machine,
            Check::Compressed => ElfFault::Compressed,
            Check::Headers => ElfFault::Headers,
            Check::Dynamic => ElfFault::Dynamic,
            Check::NoLoad => ElfFault::NoLoad,
            Check::TooManyLoads => ElfFault::TooManyLoads,
            Check::Range => ElfFault::Range,
            Check::WritableCode => ElfFault::WritableCode,
            Check::Overlap => ElfFault::Overlap,
            Check::TooLarge => ElfFault::TooLarge,
            Check::EntryOutside => ElfFault::EntryOutside,
        }
    }
}

impl From<Memory> for ElfFault {
    ghost use Rattle.std.specs.Prelude.{◌≡◌};
    ghost use Rattle.elf_image.specs.declared.fault.ElfFault.TheVariants as fault;

    ghost from_gives = { λ _ e. e ≡ fault.Memory };

    fn from(_error: Memory) -> ElfFault {
        ElfFault::Memory
    }
}

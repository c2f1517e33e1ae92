ghost use Rattle.std.specs.Prelude.{◌≡◌, ◌+◌, ◌≤◌, length};
ghost use Rattle.elf_image.specs.Fields.{u16_at, u32_at};

// Where the fields of the file header stand (ELF32, "ELF Header").
pub const EI_CLASS: usize = 4;

pub const EI_DATA: usize = 5;

pub const EI_VERSION: usize = 6;

pub const E_TYPE: usize = 16;

pub const E_MACHINE: usize = 18;

pub const E_VERSION: usize = 20;

pub const E_ENTRY: usize = 24;

pub const E_PHOFF: usize = 28;

pub const E_FLAGS: usize = 36;

pub const E_PHENTSIZE: usize = 42;

pub const E_PHNUM: usize = 44;

// Values of the fields: an executable file, RISC-V, the flag of compressed instructions, and the number of
// program headers that stands for one too large for its field.
pub const ET_EXEC: u16 = 2;

pub const EM_RISCV: u16 = 243;

pub const EF_RISCV_RVC: u32 = 1;

pub const PN_XNUM: u16 = 65_535;

// Types of program headers (ELF32, "Segment Types").
pub const PT_LOAD: u32 = 1;

pub const PT_DYNAMIC: u32 = 2;

pub const PT_INTERP: u32 = 3;

/// The number of 16 bits at a place of a file, its low byte first.
#[tactic(auto, unfolding(crate::specs::Fields::u16_at))]
pub fn u16_at(file: &[u8], at: usize) -> u16
    requires { at + 2 ≤ length file.now }
    ensures { result ≡ u16_at file.now at }
{
    u16::from_le_bytes([file[at], file[at + 1]])
}

/// The number of 32 bits at a place of a file, its low byte first.
#[tactic(auto, unfolding(crate::specs::Fields::u32_at))]
pub fn u32_at(file: &[u8], at: usize) -> u32
    requires { at + 4 ≤ length file.now }
    ensures { result ≡ u32_at file.now at }
{
    u32::from_le_bytes([file[at], file[at + 1], file[at + 2], file[at + 3]])
}

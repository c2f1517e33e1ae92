ghost use Rattle.std.specs.Prelude.{◌≡◌, ◌+◌, ◌-◌, ◌*◌, ◌<◌, ◌≤◌};
ghost use Rattle.elf_image.specs.Memory.{stack_cell};

use crate::cell::Cell;

/// The byte at an address outside all regions, before the first step. The eight stacks begin
/// `0x1_0000` apart, the first at `0x7000_0000`, and each has 16,384 bytes, all zero.
pub fn stack_cell(address: u32) -> Option<Cell>
    ensures { result ≡ stack_cell address }
{
    if address < 0x7000_0000 || address >= 0x7008_0000 {
        return None;
    }
    if (address - 0x7000_0000) % 0x1_0000 >= 16_384 {
        return None;
    }
    Some(Cell {
        byte: 0,
        readable: true,
        writable: true,
    })
}

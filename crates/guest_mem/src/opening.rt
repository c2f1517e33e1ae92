//! The blocks of a memory before the first step.
ghost use Rattle.std.specs.Prelude.{◌≡◌, ◌++◌, All, IfOk, OnOk, map};
ghost use Rattle.elf_image.specs.Layout.{IsPlaced};
ghost use Rattle.guest_mem.specs.Opening.{block_of, stacks_from};

use crate::buffer::Buffer;
use elf_image::region::Region;
use odr_list::memory::Memory;
use std::alloc::Global;

/// The number of stacks.
pub const STACKS: u32 = 8;

/// The address of the first stack.
pub const FIRST_STACK: u32 = 0x7000_0000;

/// How far apart two stacks begin, in bytes.
pub const STACK_DISTANCE: u32 = 0x1_0000;

// The number of bytes of a stack.
const STACK_SIZE: u32 = 16_384;

/// Copies of the regions.
fn region_blocks(alloc: Global, regions: &[Region]) -> Result<Vec<Buffer>, Memory>
    requires { All IsPlaced regions.now }
    ensures { IfOk result (λ blocks. blocks.items ≡ map block_of regions.now) }
{
    let mut blocks = Vec::new(alloc);
    for region in regions {
        blocks.push(Buffer::of_region(alloc, region)?)?;
    }
    Ok(blocks)
}

/// Adds the stacks.
fn add_stacks(alloc: Global, blocks: &mut Vec<Buffer>) -> Result<(), Memory>
    ensures { OnOk result (blocks.new.items ≡ blocks.old.items ++ stacks_from 0 8) }
{
    for thread in 0..STACKS {
        let start = FIRST_STACK + thread * STACK_DISTANCE;
        blocks.push(Buffer::zeros(alloc, start, STACK_SIZE)?)?;
    }
    Ok(())
}

/// Copies of the regions, and the stacks.
pub fn blocks(alloc: Global, regions: &[Region]) -> Result<Vec<Buffer>, Memory>
    requires { All IsPlaced regions.now }
    ensures { IfOk result (λ blocks. blocks.items ≡ map block_of regions.now ++ stacks_from 0 8) }
{
    let mut blocks = region_blocks(alloc, regions)?;
    add_stacks(alloc, &mut blocks)?;
    Ok(blocks)
}

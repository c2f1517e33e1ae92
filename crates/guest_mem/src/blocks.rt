//! Accesses to one block among blocks that share no address.
ghost use Rattle.std.specs.Prelude.{◌≡◌, [], ◌∷◌, length, IsTrue, IfSome, IfNone, None, AllPairs};
ghost use Rattle.std.specs.Bool.{OnTrue, OnFalse};
ghost use Rattle.elf_image.specs.Memory.{is_writable, byte_in, all_writable, writes_of, Stands};
ghost use Rattle.guest_mem.specs.Blocks.{cells_of, AreApart};
ghost use Rattle.guest_mem.specs.Runs.{IsIn, AreReadable, AreWritable, EndsBefore};

use crate::buffer::Buffer;
use crate::opening::{FIRST_STACK, STACK_DISTANCE, STACKS};
use elf_image::cell::Cell;

/// The place of the first block that an address is in.
#[tactic(auto, unfolding(crate::specs::Blocks::cells_of))]
fn first_place(blocks: &[Buffer], address: u32) -> Option<usize>
    ensures found { IfSome result (λ place. IsIn blocks.now place address) }
    ensures none { IfNone result (cells_of blocks.now address ≡ None) }
{
    for (place, block) in blocks.iter().enumerate() {
        if block.covers(address) {
            return Some(place);
        }
    }
    None
}

/// The place of the stack that an address is in, found without a search where the last blocks are the stacks.
fn stack_place(blocks: &[Buffer], address: u32) -> Option<usize>
    ensures { IfSome result (λ place. IsIn blocks.now place address) }
{
    let stack = address.checked_sub(FIRST_STACK)? / STACK_DISTANCE;
    let place = (blocks.len() + stack as usize).checked_sub(STACKS as usize)?;
    if place < blocks.len() && blocks[place].covers(address) {
        Some(place)
    } else {
        None
    }
}

/// The place of the block that an address is in.
fn place_of(blocks: &[Buffer], address: u32) -> Option<usize>
    ensures found { IfSome result (λ place. IsIn blocks.now place address) }
    ensures none { IfNone result (cells_of blocks.now address ≡ None) }
{
    match stack_place(blocks, address) {
        Some(place) => Some(place),
        None => first_place(blocks, address),
    }
}

/// The byte at an address, with its rights.
#[tactic(auto, using(crate::proofs::BlockLemmas::accesses))]
pub fn cell(blocks: &[Buffer], address: u32) -> Option<Cell>
    requires { AllPairs AreApart blocks.now }
    ensures { result ≡ cells_of blocks.now address }
{
    let place = place_of(blocks, address)?;
    Some(blocks[place].cell(address))
}

/// The bytes that may be read from an address on to the end of its block.
pub fn readable_from(blocks: &[Buffer], address: u32) -> &[u8]
    requires { AllPairs AreApart blocks.now }
    ensures { AreReadable (cells_of blocks.now) address result.now }
{
    match place_of(blocks, address) {
        Some(place) => blocks[place].readable_from(address),
        None => &[],
    }
}

/// How many bytes may be written from an address on to the end of its block.
pub fn writable_from(blocks: &[Buffer], address: u32) -> usize
    requires { AllPairs AreApart blocks.now }
    ensures { AreWritable (cells_of blocks.now) address result }
{
    match place_of(blocks, address) {
        Some(place) => blocks[place].writable_from(address),
        None => 0,
    }
}

/// The byte at an address, 0 outside all blocks.
pub fn byte_at(blocks: &[Buffer], address: u32) -> u8
    requires { AllPairs AreApart blocks.now }
    ensures { result ≡ byte_in (cells_of blocks.now address) }
{
    match cell(blocks, address) {
        None => 0,
        Some(cell) => cell.byte,
    }
}

/// Writes bytes from an address on; false where its block ends before they do or may not be written, and then
/// nothing is written.
pub fn store_in_one(blocks: &mut [Buffer], address: u32, bytes: &[u8]) -> bool
    requires { AllPairs AreApart blocks.old }
    ensures apart { AllPairs AreApart blocks.new }
    ensures allowed { OnTrue result (IsTrue (all_writable (cells_of blocks.old) address (length bytes.now))) }
    ensures stored { OnTrue result (Stands (cells_of blocks.old) (writes_of address bytes.now []) (cells_of blocks.new)) }
    ensures refused { OnFalse result (blocks.new ≡ blocks.old) }
    ensures short { OnFalse result (EndsBefore (cells_of blocks.old) address (length bytes.now)) }
{
    let Some(place) = place_of(blocks, address) else {
        return bytes.is_empty();
    };
    let block = &mut blocks[place];
    if block.writable_from(address) < bytes.len() {
        return false;
    }
    block.write(address, bytes);
    true
}

/// Writes a byte that may be written.
pub fn store_byte(blocks: &mut [Buffer], address: u32, byte: u8)
    requires apart { AllPairs AreApart blocks.old }
    requires writable { IsTrue (is_writable (cells_of blocks.old address)) }
    ensures apart { AllPairs AreApart blocks.new }
    ensures stored { Stands (cells_of blocks.old) (writes_of address (byte ∷ []) []) (cells_of blocks.new) }
{
    if let Some(place) = place_of(blocks, address) {
        let block = &mut blocks[place];
        block.write(address, &[byte]);
    }
}

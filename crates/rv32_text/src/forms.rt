//! A line for each form of operands.
ghost use Rattle.std.specs.Prelude.{◌≡◌, [], ◌∷◌, ◌++◌, IfOk, string_bytes, decimal};
ghost use Rattle.std.specs.Fmt.{signed_decimal};
ghost use Rattle.rv32_text.specs.Text.{register, base, written, ordered};

use std::alloc::{AllocError, Global};

pub(crate) fn upper(alloc: Global, name: &str, rd: u8, number: u32) -> Result<String, AllocError>
    ensures { IfOk result (λ text. string_bytes text ≡ written name.now (register rd ∷ decimal number ∷ [])) }
{
    format!(in alloc; "{name} x{rd}, {number}")
}

pub(crate) fn jump(alloc: Global, name: &str, rd: u8, offset: i32) -> Result<String, AllocError>
    ensures { IfOk result (λ text. string_bytes text ≡ written name.now (register rd ∷ signed_decimal offset ∷ [])) }
{
    format!(in alloc; "{name} x{rd}, {offset}")
}

pub(crate) fn two_and_number(
    alloc: Global,
    name: &str,
    first: u8,
    second: u8,
    number: i32,
) -> Result<String, AllocError>
    ensures { IfOk result (λ text. string_bytes text
        ≡ written name.now (register first ∷ register second ∷ signed_decimal number ∷ [])) }
{
    format!(in alloc; "{name} x{first}, x{second}, {number}")
}

pub(crate) fn fence(
    alloc: Global,
    name: &str,
    rd: u8,
    rs1: u8,
    number: u32,
) -> Result<String, AllocError>
    ensures { IfOk result (λ text. string_bytes text
        ≡ written name.now (register rd ∷ register rs1 ∷ decimal number ∷ [])) }
{
    format!(in alloc; "{name} x{rd}, x{rs1}, {number}")
}

pub(crate) fn indexed(
    alloc: Global,
    name: &str,
    first: u8,
    offset: i32,
    rs1: u8,
) -> Result<String, AllocError>
    ensures { IfOk result (λ text. string_bytes text
        ≡ written name.now (register first ∷ (signed_decimal offset ++ base rs1) ∷ [])) }
{
    format!(in alloc; "{name} x{first}, {offset}(x{rs1})")
}

pub(crate) fn three(
    alloc: Global,
    name: &str,
    rd: u8,
    rs1: u8,
    rs2: u8,
) -> Result<String, AllocError>
    ensures { IfOk result (λ text. string_bytes text
        ≡ written name.now (register rd ∷ register rs1 ∷ register rs2 ∷ [])) }
{
    format!(in alloc; "{name} x{rd}, x{rs1}, x{rs2}")
}

pub(crate) fn reserved(
    alloc: Global,
    name: &str,
    order: &str,
    rd: u8,
    rs1: u8,
) -> Result<String, AllocError>
    ensures { IfOk result (λ text. string_bytes text
        ≡ ordered name.now order.now (register rd ∷ base rs1 ∷ [])) }
{
    format!(in alloc; "{name}{order} x{rd}, (x{rs1})")
}

pub(crate) fn atomic(
    alloc: Global,
    name: &str,
    order: &str,
    rd: u8,
    rs2: u8,
    rs1: u8,
) -> Result<String, AllocError>
    ensures { IfOk result (λ text. string_bytes text
        ≡ ordered name.now order.now (register rd ∷ register rs2 ∷ base rs1 ∷ [])) }
{
    format!(in alloc; "{name}{order} x{rd}, x{rs2}, (x{rs1})")
}

//! Each instruction once: its word by the encodings of the RISC-V standard, and its text.
use super::*;
use rv32_asm::assemble;
use rv32_decode::decode;
use std::alloc::Global;
use std::process::Abort;
use std::test::Fail;

static LISTED: [(u32, &str); 59] = [
    (0x00100537, "lui x10, 256"),
    (0xfffff297, "auipc x5, 1048575"),
    (0x800000ef, "jal x1, -1048576"),
    (0x80008067, "jalr x0, -2048(x1)"),
    (0x80e78063, "beq x15, x14, -4096"),
    (0xfee79ae3, "bne x15, x14, -12"),
    (0x7ee7cfe3, "blt x15, x14, 4094"),
    (0x00e7d463, "bge x15, x14, 8"),
    (0xfee7efe3, "bltu x15, x14, -2"),
    (0x00e7f0e3, "bgeu x15, x14, 2048"),
    (0x80040f83, "lb x31, -2048(x8)"),
    (0x7ff41f83, "lh x31, 2047(x8)"),
    (0xfec42f83, "lw x31, -20(x8)"),
    (0x00044f83, "lbu x31, 0(x8)"),
    (0xfff45f83, "lhu x31, -1(x8)"),
    (0xfef407a3, "sb x15, -17(x8)"),
    (0x7ef41fa3, "sh x15, 2047(x8)"),
    (0x80f42023, "sw x15, -2048(x8)"),
    (0xff018113, "addi x2, x3, -16"),
    (0x7ff1a113, "slti x2, x3, 2047"),
    (0xfff1b113, "sltiu x2, x3, -1"),
    (0x8001c113, "xori x2, x3, -2048"),
    (0x0551e113, "ori x2, x3, 85"),
    (0x0ff1f113, "andi x2, x3, 255"),
    (0x01f29213, "slli x4, x5, 31"),
    (0x0012d213, "srli x4, x5, 1"),
    (0x4112d213, "srai x4, x5, 17"),
    (0x01e38333, "add x6, x7, x30"),
    (0x01e39333, "sll x6, x7, x30"),
    (0x01e3a333, "slt x6, x7, x30"),
    (0x01e3b333, "sltu x6, x7, x30"),
    (0x01e3c333, "xor x6, x7, x30"),
    (0x01e3d333, "srl x6, x7, x30"),
    (0x01e3e333, "or x6, x7, x30"),
    (0x01e3f333, "and x6, x7, x30"),
    (0x03e38333, "mul x6, x7, x30"),
    (0x03e39333, "mulh x6, x7, x30"),
    (0x03e3a333, "mulhsu x6, x7, x30"),
    (0x03e3b333, "mulhu x6, x7, x30"),
    (0x03e3c333, "div x6, x7, x30"),
    (0x03e3d333, "divu x6, x7, x30"),
    (0x03e3e333, "rem x6, x7, x30"),
    (0x03e3f333, "remu x6, x7, x30"),
    (0x41e38333, "sub x6, x7, x30"),
    (0x41e3d333, "sra x6, x7, x30"),
    (0x0f50000f, "fence x0, x0, 245"),
    (0x00000073, "ecall"),
    (0x00100073, "ebreak"),
    (0x160522af, "lr.w.aqrl x5, (x10)"),
    (0x1ac5a52f, "sc.w.rl x10, x12, (x11)"),
    (0x0d3928af, "amoswap.w.aq x17, x19, (x18)"),
    (0x013928af, "amoadd.w x17, x19, (x18)"),
    (0x213928af, "amoxor.w x17, x19, (x18)"),
    (0x613928af, "amoand.w x17, x19, (x18)"),
    (0x413928af, "amoor.w x17, x19, (x18)"),
    (0x813928af, "amomin.w x17, x19, (x18)"),
    (0xa53928af, "amomax.w.aq x17, x19, (x18)"),
    (0xc13928af, "amominu.w x17, x19, (x18)"),
    (0xe13928af, "amomaxu.w x17, x19, (x18)"),
];

/// Prints the instruction of a word, and assembles what was printed.
fn goes_round(rt: &impl Abort, alloc: Global, word: u32, want: &str) -> Result<(), Fail> {
    let Some(i) = decode(word) else {
        return Err(Fail::from("the word is an instruction"));
    };
    let mut text = Vec::new(alloc);
    instr_text(alloc, &i, &mut text).ok().ok_or("memory")?;
    assert_eq!(rt; text.as_slice(), want.as_bytes());
    let file = assemble(alloc, text.as_slice())
        .ok()
        .ok_or("the text is assembled")?;
    assert!(rt; file.as_slice().ends_with(&word.to_le_bytes()));
    Ok(())
}

#[test]
fn instructions_are_printed_and_assembled(rt: HostRuntime) -> Result<(), Fail> {
    for (word, text) in &LISTED {
        goes_round(&rt, rt.alloc(), *word, text)?;
    }
    Ok(())
}

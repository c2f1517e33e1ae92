//! Texts of further programs. A semicolon stands for the end of a line.

/// The least number is divided by a word that a worker sets to -1, and the quotient is written.
pub const DIVIDE_LEAST: &[u8] =
    b"la a0, w1; li a1, 0; li a7, 3; ecall; la s0, d; lw s1, 0(s0); lui s2, 524288; \
    div s2, s2, s1; sw s2, 4(s0); addi a0, s0, 4; li a1, 4; li a7, 8; ecall; li a0, 0; li a7, 1; ecall; \
    w1: la s0, d; li s1, -1; sw s1, 0(s0); li a7, 2; ecall; \
    .data; d: .word 1; buf: .word 0";

/// Two workers add 1 to each of twelve cells, which are written as digits.
pub const TWELVE_CELLS: &[u8] =
    b"la a0, work; li a1, 0; li a7, 3; ecall; la a0, work; ecall; li a0, 1; li a7, 4; \
    ecall; li a0, 2; ecall; la s0, cells; addi s2, s0, 48; la s3, buf; \
    next: lw s1, 0(s0); addi s1, s1, 48; sb s1, 0(s3); addi s0, s0, 4; addi s3, s3, 1; bne s0, s2, next; \
    la a0, buf; li a1, 12; li a7, 8; ecall; li a0, 0; li a7, 1; ecall; \
    work: la s0, cells; addi s2, s0, 48; \
    again: lw s1, 0(s0); addi s1, s1, 1; sw s1, 0(s0); addi s0, s0, 4; bne s0, s2, again; li a7, 2; ecall; \
    .data; cells: .zero 48; buf: .zero 12";

/// A store in each of 512 rounds.
pub const ACCESS_LIMIT: &[u8] = b"la s0, cell; li s1, 512; \
    loop: sw s1, 0(s0); addi s1, s1, -1; bne s1, zero, loop; li a7, 2; ecall; \
    .data; cell: .word 0";

/// Two workers add 1 some times, under a lock in odd rounds alone, and the sum is written in decimal. The number of
/// rounds stands between the two parts.
pub const DEMO_FRONT: &[u8] =
    b"la a0, work; li a1, 0; li a7, 3; ecall; la a0, work; ecall; li a0, 1; li a7, 4; ecall; \
    li a0, 2; ecall; la s0, cnt; lw s1, 0(s0); la s2, fin; \
    digits: addi s2, s2, -1; li t0, 10; remu t1, s1, t0; addi t1, t1, 48; sb t1, 0(s2); divu s1, s1, t0; \
    bne s1, zero, digits; la a1, fin; sub a1, a1, s2; addi a1, a1, 1; addi a0, s2, 0; li a7, 8; ecall; \
    li a0, 0; li a7, 1; ecall; \
    work: li s0, ";

pub const DEMO_REST: &[u8] =
    b"; again: beq s0, zero, stop; jal ra, bump; addi s0, s0, -1; j again; \
    stop: li a7, 2; ecall; \
    bump: addi sp, sp, -16; sw ra, 12(sp); sw s0, 8(sp); andi t0, s0, 1; beq t0, zero, free; li a0, 0; li a7, 5; \
    ecall; free: la t1, cnt; lw t2, 0(t1); addi t2, t2, 1; sw t2, 0(t1); beq t0, zero, away; li a7, 6; ecall; \
    away: lw s0, 8(sp); lw ra, 12(sp); addi sp, sp, 16; jalr zero, 0(ra); \
    .data; cnt: .word 0; txt: .zero 8; fin: .byte 10";

//! A file and faults that the format's own examples name.
use super::*;
use std::test::Fail;

const HELLO: &[u8] =
    b"la a0, msg\nli a1, 3\nli a7, 8\necall\nli a0, 0\nli a7, 1\necall\n.data\nmsg: .byte 104 105 10\n";

const HELLO_FILE: [u8; 151] = [
    0x7f, 0x45, 0x4c, 0x46, 0x01, 0x01, 0x01, 0x00, 0x00, 0x00, 0x00, 0x00, 0x00, 0x00, 0x00, 0x00,
    0x02, 0x00, 0xf3, 0x00, 0x01, 0x00, 0x00, 0x00, 0x00, 0x00, 0x01, 0x00, 0x34, 0x00, 0x00, 0x00,
    0x00, 0x00, 0x00, 0x00, 0x00, 0x00, 0x00, 0x00, 0x34, 0x00, 0x20, 0x00, 0x02, 0x00, 0x00, 0x00,
    0x00, 0x00, 0x00, 0x00, 0x01, 0x00, 0x00, 0x00, 0x74, 0x00, 0x00, 0x00, 0x00, 0x00, 0x01, 0x00,
    0x00, 0x00, 0x01, 0x00, 0x20, 0x00, 0x00, 0x00, 0x20, 0x00, 0x00, 0x00, 0x05, 0x00, 0x00, 0x00,
    0x04, 0x00, 0x00, 0x00, 0x01, 0x00, 0x00, 0x00, 0x94, 0x00, 0x00, 0x00, 0x00, 0x00, 0x10, 0x00,
    0x00, 0x00, 0x10, 0x00, 0x03, 0x00, 0x00, 0x00, 0x03, 0x00, 0x00, 0x00, 0x06, 0x00, 0x00, 0x00,
    0x04, 0x00, 0x00, 0x00, 0x37, 0x05, 0x10, 0x00, 0x13, 0x05, 0x05, 0x00, 0x93, 0x05, 0x30, 0x00,
    0x93, 0x08, 0x80, 0x00, 0x73, 0x00, 0x00, 0x00, 0x13, 0x05, 0x00, 0x00, 0x93, 0x08, 0x10, 0x00,
    0x73, 0x00, 0x00, 0x00, 0x68, 0x69, 0x0a,
];

#[test]
fn hello_has_its_file(rt: HostRuntime) -> Result<(), Fail> {
    let file = assemble(rt.alloc(), HELLO)?;
    assert_eq!(rt; file.as_slice(), HELLO_FILE.as_slice());
    Ok(())
}

#[test]
fn faults_have_their_lines(rt: HostRuntime) {
    let faults = [
        (
            b"addi a0, a0, 2048".as_slice(),
            AsmFault::BadLine { line: 1 },
        ),
        (b"j away", AsmFault::UnknownName { line: 1 }),
        (b"", AsmFault::BadLine { line: 1 }),
        (b"# only\n\n", AsmFault::BadLine { line: 3 }),
        (b"j x\nx: bogus\n", AsmFault::BadLine { line: 2 }),
        (b"x: ecall\nx: ecall\n", AsmFault::BadLine { line: 2 }),
        (b".data\necall\n", AsmFault::BadLine { line: 2 }),
        (b".byte 1\n", AsmFault::BadLine { line: 1 }),
        (b"ecall\n.data\n.byte 256\n", AsmFault::BadLine { line: 3 }),
        (b"addi a0, a0\n", AsmFault::BadLine { line: 1 }),
        (b"beq a0, a0, 4096\n", AsmFault::BadLine { line: 1 }),
        (b"ecall # \xc3\xa9\n", AsmFault::BadLine { line: 1 }),
        (b"ecall\r\n", AsmFault::BadLine { line: 1 }),
        (b"addi a0, a0, - 5\n", AsmFault::BadLine { line: 1 }),
        (b"a: b: ecall\n", AsmFault::BadLine { line: 1 }),
        (b"ecall\n.data\n.zero 65536\n.byte 0\n", AsmFault::TooLarge),
    ];
    for (text, fault) in faults {
        assert_eq!(rt; assemble(rt.alloc(), text).err(), Some(fault));
    }
}

#[test]
fn free_forms_are_read(rt: HostRuntime) {
    let texts = [
        b"\tstart :\taddi\ta0,a0 , 0x7Ff # comment".as_slice(),
        b"zero: jal ra, zero\nlw s0, 0 ( s0 )\nli t6, -2048\n",
        b"ecall\n.data\n.zero 65536\n",
        b"x: lr.w.aqrl s1, (s0)\n bne s2, zero, x\n.data\n.byte -128 255\n.word -2147483648 4294967295 007\n",
    ];
    for text in texts {
        assert!(rt; assemble(rt.alloc(), text).is_ok());
    }
}

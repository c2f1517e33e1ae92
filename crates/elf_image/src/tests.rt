use crate::cell::Cell;
use crate::fault::ElfFault;
use crate::header::ProgramHeader;
use crate::image::Image;
use crate::region::Perm;
use odr_list::memory::Memory;
use std::alloc::Global;
use std::test::Fail;

/// A program that writes "hi" and a line feed: two program headers, 32 bytes of code and 3 of data.
const HELLO: [u8; 151] = [
    0x7f, 0x45, 0x4c, 0x46, 0x01, 0x01, 0x01, 0x00, 0x00, 0x00, 0x00, 0x00, 0x00, 0x00, 0x00, 0x00,
    0x02, 0x00, 0xf3, 0x00, 0x01, 0x00, 0x00, 0x00, 0x00, 0x00, 0x01, 0x00, 0x34, 0x00, 0x00, 0x00,
    0x00, 0x00, 0x00, 0x00, 0x00, 0x00, 0x00, 0x00, 0x34, 0x00, 0x20, 0x00, 0x02, 0x00, 0x00, 0x00,
    0x00, 0x00, 0x00, 0x00, 0x01, 0x00, 0x00, 0x00, 0x74, 0x00, 0x00, 0x00, 0x00, 0x00, 0x01, 0x00,
    0x00, 0x00, 0x01, 0x00, 0x20, 0x00, 0x00, 0x00, 0x20, 0x00, 0x00, 0x00, 0x05, 0x00, 0x00, 0x00,
    0x04, 0x00, 0x00, 0x00, 0x01, 0x00, 0x00, 0x00, 0x94, 0x00, 0x00, 0x00, 0x00, 0x00, 0x10, 0x00,
    0x00, 0x00, 0x10, 0x00, 0x03, 0x00, 0x00, 0x00, 0x03, 0x00, 0x00, 0x00, 0x06, 0x00, 0x00, 0x00,
    0x04, 0x00, 0x00, 0x00, 0x37, 0x05, 0x10, 0x00, 0x13, 0x05, 0x05, 0x00, 0x93, 0x05, 0x30, 0x00,
    0x93, 0x08, 0x80, 0x00, 0x73, 0x00, 0x00, 0x00, 0x13, 0x05, 0x00, 0x00, 0x93, 0x08, 0x10, 0x00,
    0x73, 0x00, 0x00, 0x00, 0x68, 0x69, 0x0a,
];

#[test]
fn hello_is_read(rt: HostRuntime) -> Result<(), Fail> {
    let image = Image::read(rt.alloc(), &HELLO)?;
    assert_eq!(rt; image.entry(), 0x1_0000);
    assert_eq!(rt; image.regions().len(), 2);
    let code = &image.regions()[0];
    assert_eq!(rt; code.start, 0x1_0000);
    assert_eq!(rt;
        code.perm,
        Perm {
            r: true,
            w: false,
            x: true
        }
    );
    assert_eq!(rt; code.bytes.as_slice(), &HELLO[116..148]);
    let data = &image.regions()[1];
    assert_eq!(rt; data.start, 0x10_0000);
    assert_eq!(rt;
        data.perm,
        Perm {
            r: true,
            w: true,
            x: false
        }
    );
    assert_eq!(rt; data.bytes.as_slice(), b"hi\n".as_slice());
    for (pc, word) in [
        (0x1_0000, Some(0x0010_0537)),
        (0x1_001c, Some(0x0000_0073)),
        (0x1_0002, None),
        (0x1_0020, None),
        (0x10_0000, None),
    ] {
        assert_eq!(rt; image.fetch(pc), word, "at {pc}");
    }
    for (address, byte) in [
        (0x10_0002, Some(10)),
        (0x10_0003, None),
        (0xffff_ffff, None),
    ] {
        assert_eq!(rt; image.initial(address), byte, "at {address}");
    }
    assert_eq!(rt;
        image.perm(0x10_0000),
        Some(Perm {
            r: true,
            w: true,
            x: false
        })
    );
    for (address, cell) in [
        (
            0x1_0000,
            Some(Cell {
                byte: 0x37,
                readable: true,
                writable: false,
            }),
        ),
        (
            0x7007_3fff,
            Some(Cell {
                byte: 0,
                readable: true,
                writable: true,
            }),
        ),
        (0x7007_4000, None),
        (
            0x7000_3fff,
            Some(Cell {
                byte: 0,
                readable: true,
                writable: true,
            }),
        ),
        (0x6fff_ffff, None),
        (0x7008_0000, None),
    ] {
        assert_eq!(rt; image.opening(address), cell, "at {address}");
    }
    Ok(())
}

#[test]
fn a_word_in_two_segments(rt: HostRuntime) -> Result<(), Fail> {
    // The code has 30 bytes, and the three of data stand right behind it and may be executed.
    let mut file = HELLO;
    file[68] = 30;
    file[72] = 30;
    file[92] = 30;
    file[94] = 1;
    file[108] = 5;
    let image = Image::read(rt.alloc(), &file)?;
    for (pc, word) in [
        (0x1_0018, Some(0x0010_0893)),
        (0x1_001c, Some(0x6968_0073)),
        (0x1_001e, None),
        (0x1_0020, None),
    ] {
        assert_eq!(rt; image.fetch(pc), word, "at {pc}");
    }
    Ok(())
}

/// The fault of the hello program with one byte changed.
fn changed(alloc: Global, at: usize, byte: u8) -> Option<ElfFault> {
    let mut file = HELLO;
    if at < file.len() {
        file[at] = byte;
    }
    Image::read(alloc, &file).err()
}

#[test]
fn a_changed_byte_fails_its_check(rt: HostRuntime) {
    let alloc = rt.alloc();
    assert_eq!(rt;
        Image::read(alloc, &HELLO[..51]).err(),
        Some(ElfFault::Short)
    );
    for (at, byte, fault) in [
        (3, 0x47, Some(ElfFault::Magic)),
        (4, 2, Some(ElfFault::Class)),
        (5, 2, Some(ElfFault::Class)),
        (6, 0, Some(ElfFault::Class)),
        (20, 2, Some(ElfFault::Class)),
        (16, 3, Some(ElfFault::Kind)),
        (19, 1, Some(ElfFault::Machine)),
        (36, 1, Some(ElfFault::Compressed)),
        (36, 2, None),
        (42, 40, Some(ElfFault::Headers)),
        (44, 3, None),
        (44, 4, Some(ElfFault::Headers)),
        (44, 0, Some(ElfFault::NoLoad)),
        (52, 2, Some(ElfFault::Dynamic)),
        (52, 3, Some(ElfFault::Dynamic)),
        (52, 4, Some(ElfFault::EntryOutside)),
        (68, 33, Some(ElfFault::Range)),
        (72, 33, None),
        (76, 7, Some(ElfFault::WritableCode)),
        (76, 6, Some(ElfFault::EntryOutside)),
        (94, 1, Some(ElfFault::Overlap)),
        (106, 16, Some(ElfFault::TooLarge)),
        (24, 1, Some(ElfFault::EntryOutside)),
        (24, 28, None),
        (24, 32, Some(ElfFault::EntryOutside)),
        (7, 255, None),
    ] {
        assert_eq!(rt; changed(alloc, at, byte), fault, "byte {at}");
    }
}

/// A file with these program headers and nothing after them.
fn file_of(alloc: Global, entry: u32, headers: &[ProgramHeader]) -> Result<Vec<u8>, Memory> {
    let mut start = [0u8; 52];
    start.copy_from_slice(&HELLO[..52]);
    start[24..28].copy_from_slice(&entry.to_le_bytes());
    start[44] = headers.len().min(255) as u8;
    let mut file = Vec::from_slice(alloc, &start)?;
    for header in headers {
        let fields = [
            header.p_type,
            header.p_offset,
            header.p_vaddr,
            0,
            header.p_filesz,
            header.p_memsz,
            header.p_flags,
            4,
        ];
        for field in fields {
            file.extend_from_slice(&field.to_le_bytes())?;
        }
    }
    Ok(file)
}

fn fault_of(
    alloc: Global,
    entry: u32,
    headers: &[ProgramHeader],
) -> Result<Option<ElfFault>, Memory> {
    let file = file_of(alloc, entry, headers)?;
    Ok(Image::read(alloc, file.as_slice()).err())
}

/// A segment of zeros.
fn zeros(address: u32, size: u32, flags: u32) -> ProgramHeader {
    ProgramHeader {
        p_type: 1,
        p_offset: 0,
        p_vaddr: address,
        p_filesz: 0,
        p_memsz: size,
        p_flags: flags,
    }
}

/// A segment without bytes in memory.
fn empty(offset: u32, address: u32, file_size: u32) -> ProgramHeader {
    ProgramHeader {
        p_type: 1,
        p_offset: offset,
        p_vaddr: address,
        p_filesz: file_size,
        p_memsz: 0,
        p_flags: 7,
    }
}

#[test]
fn one_segment_at_its_edges(rt: HostRuntime) -> Result<(), Fail> {
    for (address, size, entry, fault) in [
        (0x6fff_fff8, 8, 0x6fff_fffc, None),
        (0x6fff_fff8, 9, 0x6fff_fffc, Some(ElfFault::Range)),
        (0xffff_fff8, 16, 0xffff_fff8, Some(ElfFault::Range)),
        (0x1000, 8, 0x1004, None),
        (0x1000, 7, 0x1004, Some(ElfFault::EntryOutside)),
        (0x1000, 8, 0x1002, Some(ElfFault::EntryOutside)),
        (0x1000, 8, 0xffc, Some(ElfFault::EntryOutside)),
        (0x1000, 1_048_576, 0x1000, None),
        (0x1000, 1_048_577, 0x1000, Some(ElfFault::TooLarge)),
        (0x1000, 0, 0x1000, Some(ElfFault::NoLoad)),
    ] {
        assert_eq!(rt;
            fault_of(rt.alloc(), entry, &[zeros(address, size, 5)])?,
            fault,
            "{size} at {address}"
        );
    }
    Ok(())
}

#[test]
fn two_segments_at_their_edges(rt: HostRuntime) -> Result<(), Fail> {
    let other = ProgramHeader {
        p_type: 0x6474_e551,
        p_offset: u32::MAX,
        p_vaddr: u32::MAX,
        p_filesz: u32::MAX,
        p_memsz: u32::MAX,
        p_flags: 7,
    };
    for (second, fault) in [
        (zeros(0x1008, 8, 4), None),
        (zeros(0x1007, 8, 4), Some(ElfFault::Overlap)),
        (zeros(0xff8, 8, 4), None),
        (zeros(0xff8, 9, 4), Some(ElfFault::Overlap)),
        (zeros(0x1002, 1, 4), Some(ElfFault::Overlap)),
        (zeros(0x2000, 1_048_568, 6), None),
        (zeros(0x2000, 1_048_569, 6), Some(ElfFault::TooLarge)),
        (empty(0, 0x7000_0000, 0), None),
        (empty(0, 0x7000_0001, 0), Some(ElfFault::Range)),
        (empty(0, 0x2000, 1), Some(ElfFault::Range)),
        (empty(116, 0x2000, 0), None),
        (empty(117, 0x2000, 0), Some(ElfFault::Range)),
        (other, None),
    ] {
        assert_eq!(rt;
            fault_of(rt.alloc(), 0x1004, &[zeros(0x1000, 8, 5), second])?,
            fault,
            "{second:?}"
        );
    }
    // The word at the entry may stand in two regions, if both may be executed.
    for (flags, fault) in [(5, None), (4, Some(ElfFault::EntryOutside))] {
        let halves = [zeros(0x1000, 6, 5), zeros(0x1006, 6, flags)];
        assert_eq!(rt;
            fault_of(rt.alloc(), 0x1004, &halves)?,
            fault,
            "flags {flags}"
        );
    }
    Ok(())
}

#[test]
fn at_most_sixteen_segments(rt: HostRuntime) -> Result<(), Fail> {
    let mut headers = vec![in rt.alloc(); zeros(0x1000, 8, 5)]?;
    for index in 2..17u32 {
        headers.push(zeros(0x1000 * index, 8, 5))?;
    }
    assert_eq!(rt; fault_of(rt.alloc(), 0x1000, headers.as_slice())?, None);
    headers.push(empty(0, 0x2_0000, 0))?;
    assert_eq!(rt; fault_of(rt.alloc(), 0x1000, headers.as_slice())?, None);
    headers.push(zeros(0x2_0000, 1, 4))?;
    assert_eq!(rt;
        fault_of(rt.alloc(), 0x1000, headers.as_slice())?,
        Some(ElfFault::TooManyLoads)
    );
    Ok(())
}

//! The files of the programs of the worked rows.

use guest_programs::logs::HELLO_FILE;
use guest_programs::programs::Program;
use std::alloc::{AllocError, Global};

/// Where the instructions of a program begin.
pub const TEXT: u32 = 0x1_0000;

/// Where its data begins.
pub const DATA: u32 = 0x10_0000;

/// A segment of a file: its address, its flags (1 execute, 2 write, 4 read) and its bytes.
pub type Segment<'a> = (u32, u32, &'a [u8]);

/// A file of these segments, which is entered at `TEXT`.
pub fn file_of(alloc: Global, segments: &[Segment<'_>]) -> Result<Vec<u8>, AllocError> {
    let mut file = HELLO_FILE[..44].to_vec(alloc)?;
    let count = segments.len().min(16) as u32;
    file.extend_from_slice(&count.to_le_bytes())?;
    file.extend_from_slice(&[0; 4])?;
    let mut offset = 52 + 32 * count;
    for (address, flags, bytes) in segments {
        let size = bytes.len().min(65536) as u32;
        for field in [1, offset, *address, *address, size, size, *flags, 4] {
            file.extend_from_slice(&field.to_le_bytes())?;
        }
        offset = offset.saturating_add(size);
    }
    for (_address, _flags, bytes) in segments {
        file.extend_from_slice(bytes)?;
    }
    Ok(file)
}

/// The file of a program, whose data part is left out where it is empty.
pub fn program_file(alloc: Global, program: Program) -> Result<Vec<u8>, AllocError> {
    let mut text = Vec::new(alloc);
    for word in program.words {
        text.extend_from_slice(&word.to_le_bytes())?;
    }
    let segments = [(TEXT, 5, text.as_slice()), (DATA, 6, program.data)];
    if program.data.is_empty() {
        file_of(alloc, &segments[..1])
    } else {
        file_of(alloc, &segments)
    }
}

/// Bytes, some of which are changed: the place and the value of each.
pub fn changed(
    alloc: Global,
    bytes: &[u8],
    changes: &[(usize, u8)],
) -> Result<Vec<u8>, AllocError> {
    let mut file = bytes.to_vec(alloc)?;
    for (at, byte) in changes {
        if *at < file.len() {
            file[*at] = *byte;
        }
    }
    Ok(file)
}

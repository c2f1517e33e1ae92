use crate::hit::hit;
use crate::touch::touch;
use bumpalo::Bump;
use bv_rewrite::rewrite::NoRules;
use bv_terms::pool::TermPool;
use odr_list::memory::Memory;
use std::alloc::Global;
use std::test::Fail;
use step_terms::make::{constant, word};

// What says whether a write hits a byte, at addresses that are constants.
fn hit_value(
    alloc: Global,
    guarded: bool,
    write: (u32, u32),
    read: (u32, u32),
) -> Result<Option<u64>, Memory> {
    let arena = Bump::new(alloc);
    let mut pool = TermPool::new(alloc, &arena);
    let guard = constant(&mut pool, 1, u64::from(guarded))?;
    let address = word(&mut pool, write.0)?;
    let other = word(&mut pool, read.0)?;
    let term = hit(&mut pool, &NoRules, guard, address, write.1, other, read.1)?;
    Ok(pool.constant(term))
}

// What says whether a write of so many bytes touches a word.
fn touch_value(
    alloc: Global,
    guarded: bool,
    count: u32,
    write: u32,
    reserved: u32,
) -> Result<Option<u64>, Memory> {
    let arena = Bump::new(alloc);
    let mut pool = TermPool::new(alloc, &arena);
    let guard = constant(&mut pool, 1, u64::from(guarded))?;
    let address = word(&mut pool, write)?;
    let reserved = word(&mut pool, reserved)?;
    let term = touch(&mut pool, &NoRules, guard, count, address, reserved)?;
    Ok(pool.constant(term))
}

// A guard, the write's address and index, the reader's address and index, and whether it hits.
const HITS: [(bool, (u32, u32), (u32, u32), u64); 7] = [
    (true, (0x1000, 0), (0x1000, 0), 1),
    (true, (0x1000, 3), (0x1003, 0), 1),
    (true, (0x1000, 3), (0x1002, 0), 0),
    (true, (0x1000, 0), (0xffe, 2), 1),
    (true, (0xffff_fffe, 3), (1, 0), 1),
    (true, (1, 0), (0xffff_fffe, 3), 1),
    (false, (0x1000, 0), (0x1000, 0), 0),
];

// A guard, the number of bytes, the write's address, the reserved one, and whether the word is touched.
const TOUCHES: [(bool, u32, u32, u32, u64); 8] = [
    (true, 4, 0x1000, 0x1000, 1),
    (true, 1, 0x1003, 0x1000, 1),
    (true, 4, 0xffd, 0x1000, 1),
    (true, 4, 0xffc, 0x1000, 0),
    (true, 4, 0x1001, 0x1006, 1),
    (true, 2, 0xffff_ffff, 0, 1),
    (true, 0, 0x1000, 0x1000, 0),
    (false, 4, 0x1000, 0x1000, 0),
];

fn hits() -> &'static [(bool, (u32, u32), (u32, u32), u64)] {
    &HITS
}

fn touches() -> &'static [(bool, u32, u32, u32, u64)] {
    &TOUCHES
}

#[test]
fn bytes_are_hit_where_both_addresses_are_one(rt: HostRuntime) -> Result<(), Fail> {
    let rows = hits();
    for k in 0..rows.len() {
        let (guarded, write, read, wanted) = rows[k];
        assert_eq!(rt; hit_value(rt.alloc(), guarded, write, read)?, Some(wanted));
    }
    Ok(())
}

#[test]
fn words_are_touched_by_any_of_their_bytes(rt: HostRuntime) -> Result<(), Fail> {
    let rows = touches();
    for k in 0..rows.len() {
        let (guarded, count, write, reserved, wanted) = rows[k];
        assert_eq!(rt;
            touch_value(rt.alloc(), guarded, count, write, reserved)?,
            Some(wanted)
        );
    }
    Ok(())
}

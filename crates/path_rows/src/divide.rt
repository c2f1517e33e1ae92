//! The quotient of -7 and a racing word, which thread 0 loads at step 7, stores the low byte of at step 10, and writes at
//! step 14.

ghost use Rattle.std.specs.Prelude.{◌<◌, length};

use crate::symbolic::{Followed, is_met, paths_of};
use crate::terms::{Values, evaluate};
use bumpalo::Bump;
use bv_terms::pool::TermPool;
use guest_programs::logs::DIVIDE_LOG;
use guest_programs::programs::DIVIDE;
use guest_runs::guests::Guest;
use guest_runs::logged::read_guest;
use guest_runs::no_run::NoRun;
use odr_list::bytes::Bytes;
use odr_list::list::List;
use odr_list::memory::Memory;
use odr_log::log::Pos;
use path_exec::Paths;
use plain_walk::given::Supplied;
use std::alloc::Global;
use std::test::Fail;

/// The word that is loaded, changes of the log, and whether the constraints are met.
type Row = (u8, &'static [(usize, u8)], bool);

/// The written byte stands in the log at place 51.
static ROWS: [Row; 5] = [
    // By 0 the quotient is -1.
    (0, &[(51, 0xff)], true),
    (0, &[(51, 0x01)], false),
    // -7 by 2 is -3.
    (2, &[(51, 0xfd)], true),
    (2, &[(51, 0xff)], false),
    (2, &[(51, 0xfc)], false),
];

fn rows() -> &'static [Row] {
    &ROWS
}

/// What thread 0 hears at a step, where it loads this word and finds this byte when it writes.
fn heard(alloc: Global, step: u32, word: u8, byte: u8) -> Result<Bytes, Memory> {
    match step {
        7 => Bytes::from_slice(alloc, &[word, 0, 0, 0]),
        14 => Bytes::from_slice(alloc, &[byte]),
        _ => Ok(Bytes::new(alloc)),
    }
}

fn given(alloc: Global, word: u8, byte: u8) -> Result<Vec<List<Supplied>>, Memory> {
    let mut row = List::new(alloc);
    for step in 0..15 {
        row.push(Supplied {
            bytes: heard(alloc, step, word, byte)?,
            won: false,
        })?;
    }
    let mut given = Vec::new(alloc);
    given.push(row)?;
    Ok(given)
}

/// The byte that step 10 of thread 0 writes.
fn written(paths: &Paths, values: &Values) -> Option<u8> {
    let at = Pos {
        thread: 0,
        step: 10,
    };
    let mut accesses = paths.accesses.as_slice().iter();
    let access = accesses.find(|access| access.pos == at)?;
    let byte = access.writes.as_slice().first()?;
    u8::try_from(values.of(*byte)?).ok()
}

/// The byte that step 10 writes where this word is loaded.
fn stored(
    alloc: Global,
    pool: &TermPool<'_>,
    followed: &Followed,
    word: u8,
) -> Result<Option<u8>, NoRun>
    requires { followed.now.last.number < length pool.now }
{
    let rows = given(alloc, word, 0)?;
    match evaluate(alloc, pool, followed.last, rows.as_slice())? {
        Some(values) => Ok(written(&followed.paths, &values)),
        None => Ok(None),
    }
}

/// A guest that writes what the log's patches say.
fn divider(patches: &'static [(usize, u8)]) -> Guest {
    Guest {
        program: DIVIDE,
        log: &DIVIDE_LOG,
        patches,
        runs: &[],
        changes: &[],
        others: &[],
    }
}

/// Whether the constraints are met, where step 14 finds what step 10 wrote.
fn divides(
    alloc: Global,
    word: u8,
    patches: &'static [(usize, u8)],
) -> Result<Option<bool>, NoRun> {
    let logged = read_guest(alloc, &divider(patches))?;
    let arena = Bump::new(alloc);
    let mut pool = TermPool::new(alloc, &arena);
    let followed = paths_of(alloc, &mut pool, &logged)?;
    let Some(byte) = stored(alloc, &pool, &followed, word)? else {
        return Ok(None);
    };
    let rows = given(alloc, word, byte)?;
    is_met(alloc, &pool, &followed, rows.as_slice())
}

#[test]
fn the_quotient_is_that_of_the_standard(rt: HostRuntime) -> Result<(), Fail> {
    for (word, patches, met) in rows() {
        let found = divides(rt.alloc(), *word, patches)?;
        assert_eq!(rt; found, Some(*met), "by {word}, {patches:?}");
    }
    Ok(())
}

//! The accesses and the registers at the end of symbolic paths, beside those of the walk.

use crate::symbolic::paths_of;
use crate::terms::{Values, evaluate};
use bumpalo::Bump;
use bv_terms::node::TermId;
use bv_terms::pool::TermPool;
use elf_image::image::Image;
use guest_runs::guests::{Guest, guests};
use guest_runs::loaded::load;
use guest_runs::no_run::NoRun;
use guest_runs::walks::walked;
use odr_log::log::{Pos, ThreadLog};
use path_exec::Paths;
use plain_machine::act::access_of;
use plain_walk::table::{Table, Visited};
use rv_model::code::instr_at;
use rv_model::hearing::Outcome;
use rv_model::state::Local;
use std::alloc::Global;
use std::test::Fail;
use thread_terms::access::Access;

/// The address that a visited step accesses.
fn address_in(image: &Image, visited: &Visited) -> Option<u32> {
    let local = &visited.before.local;
    match instr_at(image, local.pc) {
        Ok(instr) => Some(access_of(local, &instr).address),
        Err(_) => None,
    }
}

/// The byte that a visited step writes to an address.
fn written_in(visited: &Visited, address: u32) -> Option<u8> {
    match &visited.outcome {
        Outcome::Faults(_) => None,
        Outcome::Goes { writes, .. } => writes.newest(address),
    }
}

/// The thread after a visited step.
fn local_after(visited: &Visited) -> Local {
    match &visited.outcome {
        Outcome::Faults(_) => visited.before.local,
        Outcome::Goes { local, .. } => *local,
    }
}

/// The byte that a term comes to where it is written.
fn byte_of(values: &Values, byte: TermId, written: bool) -> Option<u64> {
    if written { values.of(byte) } else { None }
}

/// From an address on a step writes what these terms come to, or nothing.
fn are_written(
    values: &Values,
    writes: &[TermId],
    written: bool,
    address: u32,
    visited: &Visited,
) -> bool {
    let mut place = address;
    for byte in writes {
        let found = written_in(visited, place).map(u64::from);
        if byte_of(values, *byte, written) != found {
            return false;
        }
        place = place.wrapping_add(1);
    }
    true
}

/// An access has the address of its step, and writes what its step writes.
fn is_shown(image: &Image, values: &Values, access: &Access, visited: &Visited) -> bool {
    let Some(address) = address_in(image, visited) else {
        return false;
    };
    let written = values.of(access.guard) == Some(1);
    values.of(access.address) == Some(u64::from(address))
        && are_written(values, access.writes.as_slice(), written, address, visited)
}

/// The first access that is not that of its step.
fn wrong_access(image: &Image, values: &Values, accesses: &[Access], table: &Table) -> Option<Pos> {
    for access in accesses {
        if !is_shown(image, values, access, table.at(access.pos)) {
            return Some(access.pos);
        }
    }
    None
}

/// The registers at the end are those after a thread's last step.
fn is_end(values: &Values, paths: &Paths, thread: u8, local: &Local) -> bool {
    for number in 0u8..32 {
        let place = 32 * usize::from(thread) + usize::from(number);
        let term = paths.ends.as_slice().get(place);
        let found = term.and_then(|term| values.of(*term));
        if found != Some(u64::from(local.register(number))) {
            return false;
        }
    }
    true
}

/// The first of the first 256 threads whose registers at the end are not those of its walk.
fn wrong_end(values: &Values, paths: &Paths, threads: &[ThreadLog], table: &Table) -> Option<Pos> {
    let mut thread = 0u8;
    for logged in threads {
        let at = Pos {
            thread,
            step: logged.steps.saturating_sub(1),
        };
        if !is_end(values, paths, thread, &local_after(table.at(at))) {
            return Some(at);
        }
        thread = thread.saturating_add(1);
    }
    None
}

/// The first access or end of a guest's paths that is not that of its walk.
fn wrong(alloc: Global, guest: &Guest) -> Result<Option<Pos>, NoRun> {
    let loaded = load(alloc, guest)?;
    let rows = loaded.ran.rows.as_slice();
    let table = walked(alloc, &loaded, rows)?;
    let arena = Bump::new(alloc);
    let mut pool = TermPool::new(alloc, &arena);
    let followed = paths_of(alloc, &mut pool, &loaded.logged)?;
    let Some(values) = evaluate(alloc, &pool, followed.last, rows)? else {
        return Err(NoRun::Walk);
    };
    let paths = &followed.paths;
    let accesses = paths.accesses.as_slice();
    let access = wrong_access(&loaded.logged.image, &values, accesses, &table);
    let threads = loaded.logged.log.threads.as_slice();
    Ok(access.or(wrong_end(&values, paths, threads, &table)))
}

#[test]
fn accesses_and_ends_are_those_of_the_walk(rt: HostRuntime) -> Result<(), Fail> {
    for (number, guest) in guests().iter().enumerate() {
        let found = wrong(rt.alloc(), guest)?;
        assert_eq!(rt; found, None, "guest {number}");
    }
    Ok(())
}

//! Whether what is given is what memory and reservations are along a schedule.

ghost use Rattle.std.specs.Prelude.{◌≡◌, ◌↔◌, ◌<◌, ◌≤◌, ◌^◌, ◌∷◌, ℕ, [], ◌++◌, length, reverse, is_ok, IfOk, OnOk, IsTrue, Ok, Some, if◌then◌else◌};
ghost use Rattle.elf_image.specs.Memory.{opening_cells, cells_after, byte_in};
ghost use Rattle.rv_model.specs.Instruction.{conditional_at, access_at, reserving_at, wins};
ghost use Rattle.rv_model.specs.Noted.{writes_in};
ghost use Rattle.rv_model.specs.Step.{instr_at};
ghost use Rattle.rv_model.specs.Thread.{surviving, touches};
ghost use Rattle.guided_walk.specs.Guided.{at, access_in, conditional_in};
ghost use Rattle.guided_walk.specs.Schedules.{count, next_of};
ghost use Rattle.guided_walk.specs.Fits.{byte_address, conditional_by, read_count, reads_in, reserved, writes_along, FitsVisit, Fits};
ghost use Rattle.plain_walk.specs.Data.{byte_of, given_of, seen_of, visit_of};
ghost use Rattle.plain_walk.specs.Tables.{visits_in};
ghost use Rattle.plain_walk.specs.Fit.{BytesFit, WonFits};

use crate::before::reserving_at;
use crate::given::{Supplied, byte_of, bytes_at, won_at};
use crate::table::{Before, Table, Visited};
use elf_image::image::Image;
use odr_list::list::List;
use odr_list::memory::Memory;
use odr_log::log::{Call, Pos};
use plain_machine::act::{access_of, conditional_of, wins};
use plain_machine::memory::{byte_in, cell};
use rv_model::code::instr_at;
use rv_model::hearing::{Access, Outcome};
use rv_model::state::Note;
use rv_model::writes::Writes;
use rv32_decode::instr::Instr;
use std::alloc::Global;
use std::marker::Model;

/// Steps, seen by contracts as their list, the newest first.
#[derive(Drop)]
struct Done {
    oldest_first: Vec<Pos>,
}

impl Model for Done {
    ghost use Rattle.std.specs.Prelude.{List, reverse};
    ghost use Rattle.odr_log.specs.declared.log.Pos.{Pos};

    ghost Value = { List Pos };

    ghost view = { λ done. reverse done.oldest_first.items };
}

impl Done {
    fn new(alloc: Global) -> Self
        ensures { result ≡ [] }
    {
        Done {
            oldest_first: Vec::new(alloc),
        }
    }

    fn push(&mut self, step: Pos) -> Result<(), Memory>
        ensures { self.new ≡ (if is_ok result then step ∷ self.old else self.old) }
    {
        self.oldest_first.push(step)?;
        Ok(())
    }

    /// The next step of a thread.
    fn next_of(&self, thread: u8) -> Pos
        requires { length self.now < 2 ^ 32 }
        ensures { result ≡ next_of thread self.now }
    {
        Pos {
            thread,
            step: count(self.oldest_first.as_slice(), thread),
        }
    }

    /// A thread's reservation.
    fn reserved(&self, image: &Image, table: &Table, thread: u8) -> Option<u32>
        ensures { result ≡ reserved image.now (visits_in table.now) thread self.now }
    {
        reserved_after(image, table, thread, self.oldest_first.as_slice())
    }
}

/// How many of these steps are of a thread.
#[tactic(auto, using(crate::proofs::FitLemmas::counts))]
fn count(steps: &[Pos], thread: u8) -> u32
    requires { length steps.now < 2 ^ 32 }
    ensures { result ≡ count thread (reverse steps.now) }
{
    let mut count = 0u32;
    for step in steps {
        if step.thread == thread {
            count += 1;
        }
    }
    count
}

/// The writes of a step.
fn touches(outcome: &Outcome, reserved: u32) -> bool
    ensures { result ≡ touches (writes_in outcome.now) reserved }
{
    match outcome {
        Outcome::Faults(_) => false,
        Outcome::Goes { writes, .. } => writes.touches(reserved),
    }
}

/// A reservation of another thread, after a step.
fn surviving(outcome: &Outcome, reservation: Option<u32>) -> Option<u32>
    ensures { result ≡ surviving (writes_in outcome.now) reservation }
{
    match reservation {
        Some(reserved) if touches(outcome, reserved) => None,
        _ => reservation,
    }
}

/// A thread's reservation after one step more.
fn reserved_more(
    image: &Image,
    visited: &Visited,
    is_own: bool,
    reservation: Option<u32>,
) -> Option<u32>
    ensures { result ≡ (if is_own then reserving_at visited.now.before.local (instr_at image.now visited.now.before.local.pc) reservation else surviving (writes_in visited.now.outcome) reservation) }
{
    if is_own {
        reserving_at(image, &visited.before.local, reservation)
    } else {
        surviving(&visited.outcome, reservation)
    }
}

/// A thread's reservation after steps, of which the oldest stands first.
#[tactic(auto, using(crate::proofs::FitLemmas::reservations))]
fn reserved_after(image: &Image, table: &Table, thread: u8, steps: &[Pos]) -> Option<u32>
    ensures { result ≡ reserved image.now (visits_in table.now) thread (reverse steps.now) }
{
    let mut reservation = None;
    for step in steps {
        reservation = reserved_more(image, table.at(*step), step.thread == thread, reservation);
    }
    reservation
}

/// Whether given bytes are those of the memory that writes left.
#[tactic(auto, using(crate::proofs::FitLemmas::bytes))]
fn bytes_fit(image: &Image, writes: &Writes, bytes: &[u8], address: u32, count: u32) -> bool
    ensures { IsTrue result ↔ BytesFit (byte_of bytes.now) (cells_after (opening_cells image.now) writes.now) address count }
{
    let mut at = address;
    for i in 0..count {
        if byte_of(bytes, i) != byte_in(cell(image, writes, at)) {
            return false;
        }
        at = at.wrapping_add(1);
    }
    true
}

/// Whether the success of a store-conditional is as the thread's reservation has it, where the store-conditional looks
/// back to a load-reserved.
fn won_fits(
    conditional: Option<u32>,
    link: Option<u32>,
    reservation: Option<u32>,
    won: bool,
) -> bool
    ensures { IsTrue result ↔ WonFits conditional link reservation won }
{
    conditional.is_none() || link.is_none() || won == wins(conditional, reservation)
}

/// How many bytes a step read.
fn read_count(image: &Image, visited: &Visited) -> u32
    ensures { result ≡ read_count image.now (visit_of visited.now) }
{
    let local = &visited.before.local;
    let Ok(instr) = instr_at(image, local.pc) else {
        return 0;
    };
    if reads_in(&instr, &visited.outcome) {
        access_of(local, &instr).count
    } else {
        0
    }
}

/// Whether a step read memory.
fn reads_in(instr: &Instr, outcome: &Outcome) -> bool
    ensures { result ≡ reads_in (Ok instr.now) outcome.now }
{
    match (instr, outcome) {
        (
            Instr::Load { .. } | Instr::LoadReserved { .. } | Instr::Amo { .. },
            Outcome::Goes { .. },
        ) => true,
        (
            Instr::Ecall,
            Outcome::Goes {
                note: Note::Called(Call::Write { .. }),
                ..
            },
        ) => true,
        _ => false,
    }
}

/// The first address that the instruction of a thread accesses.
fn address_in(image: &Image, before: &Before) -> u32
    ensures { result ≡ (access_in image.now (seen_of before.now)).address }
{
    match instr_at(image, before.local.pc) {
        Err(_) => 0,
        Ok(instr) => access_of(&before.local, &instr).address,
    }
}

/// The address of a store-conditional that took place.
fn conditional_by(image: &Image, visited: &Visited) -> Option<u32>
    ensures { result ≡ conditional_by (conditional_in image.now (visit_of visited.now).seen) visited.now.outcome }
{
    match (&visited.outcome, instr_at(image, visited.before.local.pc)) {
        (Outcome::Goes { .. }, Ok(instr)) => conditional_of(&visited.before.local, &instr),
        _ => None,
    }
}

/// Whether what is given for a step is what a memory and a reservation are before it.
fn fits_visit(
    image: &Image,
    rows: &[List<Supplied>],
    writes: &Writes,
    reservation: Option<u32>,
    step: Pos,
    visited: &Visited,
) -> bool
    ensures { IsTrue result ↔ FitsVisit image.now (given_of rows.now) (cells_after (opening_cells image.now) writes.now) reservation step (visit_of visited.now) }
{
    let address = address_in(image, &visited.before);
    let count = read_count(image, visited);
    let conditional = conditional_by(image, visited);
    bytes_fit(image, writes, bytes_at(rows, step), address, count)
        && won_fits(
            conditional,
            visited.before.link,
            reservation,
            won_at(rows, step),
        )
}

/// The writes of a step before older ones.
fn write_more(writes: &mut Writes, outcome: &Outcome) -> Result<(), Memory>
    ensures { OnOk result (writes.new ≡ writes_in outcome.now ++ writes.old) }
{
    match outcome {
        Outcome::Faults(_) => Ok(()),
        Outcome::Goes { writes: newer, .. } => writes.extend(newer),
    }
}

/// Whether what is given fits a schedule: each byte that a step read is that of the newest write before it, else the
/// initial one, and each store-conditional that looks back to a load-reserved succeeds where the thread still has its
/// reservation, and of this address.
pub fn fits(
    alloc: Global,
    image: &Image,
    rows: &[List<Supplied>],
    table: &Table,
    schedule: &[u8],
) -> Result<bool, Memory>
    requires { length schedule.now < 2 ^ 32 }
    ensures { IfOk result (λ fit. IsTrue fit ↔ Fits image.now (given_of rows.now) (visits_in table.now) schedule.now) }
{
    let mut done = Done::new(alloc);
    let mut writes = Writes::new(alloc);
    for thread in schedule {
        let step = done.next_of(*thread);
        let visited = table.at(step);
        let reservation = done.reserved(image, table, *thread);
        if !fits_visit(image, rows, &writes, reservation, step, visited) {
            return Ok(false);
        }
        write_more(&mut writes, &visited.outcome)?;
        done.push(step)?;
    }
    Ok(true)
}

//! Shapes of accesses.
ghost use Rattle.std.specs.Prelude.{◌≡◌, ◌<◌, ◌^◌, All, IfOk, Some, map};
ghost use Rattle.odr_log.specs.declared.log.Log.{Log};
ghost use Rattle.rv_model.specs.Walk.{Walk};
ghost use Rattle.bv_terms.specs.Values.{Assignment};
ghost use Rattle.race_set.specs.declared.shape.Span.{Span};
ghost use Rattle.path_exec.specs.Paths.{IsListed};
ghost use Rattle.term_sources.specs.Law.{AreWords};
ghost use Rattle.term_sources.specs.Sees.{address_value};
ghost use Rattle.fixed_reads.specs.Shapes.{AreShapes, IsShapeOf};
ghost use Rattle.reader_parts.specs.Conditions.{HasTerms};
ghost use Rattle.access_shapes.specs.Shaped.{AreListed, HasConstant, IsNarrow, byte_count, has_bytes, linked_step, may_write, place_of, shape_in};

use bv_terms::node::TermId;
use bv_terms::pool::TermPool;
use odr_list::list::List;
use odr_list::memory::Memory;
use odr_log::log::Pos;
use race_set::shape::{AccessShape, Span};
use std::alloc::Global;
use thread_terms::access::Access;

// Whether there are bytes.
fn has_bytes(bytes: &[TermId]) -> bool
    ensures { result ≡ has_bytes bytes.now }
{
    !bytes.is_empty()
}

// Whether an access has bytes to write, and its guard isn't the constant 0.
fn may_write(pool: &TermPool<'_>, access: &Access) -> bool
    requires { HasTerms pool.now access.now }
    ensures writes { result ≡ may_write pool.now access.now }
    ensures constant { HasConstant pool.now access.now.guard.number }
{
    let guard = pool.constant(access.guard);
    has_bytes(access.writes.as_slice()) && !matches!(guard, Some(0))
}

// How many bytes an access writes, or reads where it writes none.
fn byte_count(access: &Access) -> u32
    requires { IsNarrow access.now }
    ensures { result ≡ byte_count access.now }
{
    if has_bytes(access.writes.as_slice()) {
        access.writes.len() as u32
    } else {
        access.reads.len() as u32
    }
}

// The bytes of an access whose address is a constant.
fn place_of(pool: &TermPool<'_>, access: &Access) -> Option<Span>
    requires terms { HasTerms pool.now access.now }
    requires narrow { IsNarrow access.now }
    ensures place { result ≡ place_of pool.now access.now }
    ensures first { (span : Span) → result ≡ Some span → span.first < 2 ^ 32 }
    ensures address { (span : Span) → result ≡ Some span → (t : Assignment) → address_value t pool.now access.now ≡ span.first }
    ensures word { (t : Assignment) → address_value t pool.now access.now < 2 ^ 32 }
{
    let len = byte_count(access);
    let width = pool.width(access.address);
    prove!(width == 32);
    match pool.constant(access.address) {
        Some(first) => Some(Span {
            first: first as u32,
            len,
        }),
        None => None,
    }
}

// The step of the access at a place.
fn step_at(accesses: &[Access], place: usize) -> Option<Pos>
    ensures { result ≡ linked_step accesses.now (Some place) }
{
    match accesses.get(place) {
        Some(access) => Some(access.pos),
        None => None,
    }
}

// The step of the access that a link goes to.
fn linked_step(accesses: &[Access], link: Option<u32>) -> Option<Pos>
    ensures { result ≡ linked_step accesses.now link }
{
    match link {
        Some(place) => step_at(accesses, place as usize),
        None => None,
    }
}

/// The shape of one of some accesses.
pub fn shape_of(pool: &TermPool<'_>, accesses: &[Access], access: &Access) -> AccessShape
    requires terms { HasTerms pool.now access.now }
    requires narrow { IsNarrow access.now }
    ensures shape { result ≡ shape_in pool.now accesses.now access.now }
    ensures known { (log : Log) (walk : Walk) → IsListed log walk pool.now accesses.now access.now → IsShapeOf pool.now access.now result }
    ensures word { (t : Assignment) → address_value t pool.now access.now < 2 ^ 32 }
{
    AccessShape {
        pos: access.pos,
        reads: has_bytes(access.reads.as_slice()),
        writes: may_write(pool, access),
        place: place_of(pool, access),
        link: linked_step(accesses, access.link),
    }
}

/// The shape of each access.
///
/// # Errors
///
/// `Memory` alone.
pub fn shapes_of(
    alloc: Global,
    pool: &TermPool<'_>,
    accesses: &[Access],
) -> Result<List<AccessShape>, Memory>
    requires terms { All (HasTerms pool.now) accesses.now }
    requires narrow { All IsNarrow accesses.now }
    ensures shapes { IfOk result (λ shapes. shapes ≡ map (shape_in pool.now accesses.now) accesses.now) }
    ensures known { IfOk result (λ shapes. (log : Log) (walk : Walk) → AreListed log walk pool.now accesses.now → AreShapes pool.now accesses.now shapes) }
    ensures words { IfOk result (λ shapes. (t : Assignment) → AreWords t pool.now accesses.now) }
{
    let mut shapes = List::new(alloc);
    for x in 0..accesses.len() {
        shapes.push(shape_of(pool, accesses, &accesses[x]))?;
    }
    Ok(shapes)
}

//! The places of accesses.
ghost use Rattle.std.specs.Prelude.{IfOk};
ghost use Rattle.order_places.specs.Placed.{ArePlacesOf};

use odr_list::list::List;
use odr_list::memory::Memory;
use order_vars::order_vars::OrderVars;
use std::alloc::Global;
use thread_terms::access::Access;

/// Of each access the place of its step among the chosen ones, none where it isn't chosen.
///
/// # Errors
///
/// `Memory` alone.
pub fn places_of(
    alloc: Global,
    vars: &OrderVars,
    accesses: &[Access],
) -> Result<List<Option<usize>>, Memory>
    ensures { IfOk result (λ places. ArePlacesOf vars.now.chosen accesses.now places) }
{
    let mut places = List::new(alloc);
    for x in 0..accesses.len() {
        places.push(vars.find(accesses[x].pos))?;
    }
    Ok(places)
}

//! What is known of the accesses of a log's paths.
ghost use Rattle.std.specs.Prelude.{◌≡◌, All, IfOk, OnErr};
ghost use Rattle.elf_image.specs.Layout.{Layout};
ghost use Rattle.odr_log.specs.declared.log.Log.{Log};
ghost use Rattle.rv_model.specs.Walk.{Walk};
ghost use Rattle.happens_before.specs.Table.{IsOrderOf};
ghost use Rattle.clause_store.specs.Formula.{Grows};
ghost use Rattle.path_exec.specs.declared.paths.Paths.{Paths};
ghost use Rattle.reader_parts.specs.Conditions.{HasTerms};
ghost use Rattle.access_shapes.specs.Shaped.{IsNarrow};
ghost use Rattle.formula_base.specs.Basis.{HasPaths, IsBase};

use crate::chosen::chosen_of;
use access_shapes::shapes_of;
use bv_terms::pool::TermPool;
use clause_store::store::ClauseStore;
use formula_facts::known::Known;
use happens_before::order::Order;
use odr_list::list::List;
use odr_list::memory::Memory;
use odr_log::log::Pos;
use order_places::places::places_of;
use order_vars::order_vars::OrderVars;
use race_set::race_set::{RaceSet, open_accesses};
use std::alloc::Global;
use thread_terms::access::Access;

/// What is known of the accesses of paths, with clauses of the order of those that need one, and of those at other steps that are
/// asked for. Steps that are no access are passed over.
///
/// # Errors
///
/// `Memory` alone, which leaves older variables and clauses.
pub fn known_of(
    alloc: Global,
    pool: &TermPool<'_>,
    order: Order,
    accesses: List<Access>,
    also: &[Pos],
    clauses: &mut ClauseStore<'_>,
) -> Result<Known, Memory>
    requires terms { All (HasTerms pool.now) accesses }
    requires narrow { All IsNarrow accesses }
    ensures accesses { IfOk result (λ known. known.accesses ≡ accesses) }
    ensures base { IfOk result (λ known. (image : Layout) (log : Log) (walk : Walk) (paths : Paths) → HasPaths image log walk pool.now paths
        → paths.accesses ≡ accesses → IsOrderOf order log → IsBase image log pool.now also.now known clauses.old clauses.new) }
    ensures grows { IfOk result (λ known. Grows clauses.old clauses.new) }
    ensures err { OnErr result (Grows clauses.old clauses.new) }
{
    let shapes = shapes_of(alloc, pool, accesses.as_slice())?;
    let RaceSet { ordered, seen } = open_accesses(alloc, &order, shapes.as_slice())?;
    let chosen = chosen_of(alloc, shapes.as_slice(), ordered.as_slice(), also)?;
    let vars = OrderVars::new(alloc, &order, chosen.as_slice(), clauses)?;
    let places = places_of(alloc, &vars, accesses.as_slice())?;
    Ok(Known {
        order,
        accesses,
        shapes,
        seen,
        vars,
        places,
    })
}

//! Building the formula.
ghost use Rattle.std.specs.Prelude.{[], IfErr, IfOk};
ghost use Rattle.happens_before.specs.Table.{IsOrderOf};
ghost use Rattle.odr_log.specs.Grammar.{IsValid};
ghost use Rattle.trace_path.specs.Traced.{IsTraced};
ghost use Rattle.rv_model.specs.CallsFit.{CallsFit};
ghost use Rattle.rv_model.specs.Walk.{PathsFit};
ghost use Rattle.read_from.specs.Formulas.{HasFewAccesses, IsFormulaOf, IsRefusal};

use crate::formula::{Formula, FormulaFault, Ordering};
use bit_clauses::blaster::Blaster;
use bumpalo::Bump;
use bv_rewrite::rewrite::Rewrite;
use bv_terms::pool::TermPool;
use clause_store::store::ClauseStore;
use elf_image::image::Image;
use encoder::encoder::Encoder;
use formula_base::base::known_of;
use formula_facts::all::add_all;
use happens_before::order::Order;
use logged_walks::law::{logged_calls_fit, logged_paths_fit};
use odr_limits::MOST_ACCESSES;
use odr_list::memory::Memory;
use odr_log::log::{Log, Pos};
use path_exec::paths::Paths;
use std::alloc::Global;
use trace_path::Traces;
use valid_logs::valid_formulas_stand;

// The empty clause, which no assignment satisfies: the formula of a log that no schedule has.
fn refuted<'a>(
    alloc: Global,
    arena: &'a Bump,
    image: &Image,
    log: &Log,
    also: &[Pos],
) -> Result<Formula<'a>, Memory>
    requires unfit { PathsFit image.now log.now → CallsFit log.now → ⊥ }
    ensures { IfOk result (IsFormulaOf image.now log.now also.now) }
{
    let mut clauses = ClauseStore::new(alloc, arena);
    clauses.add(&[])?;
    logged_paths_fit();
    logged_calls_fit();
    Ok(Formula {
        clauses,
        ordering: None,
    })
}

// The formula of a log that has a walk and whose calls fit.
fn formula_of<'a, R: Rewrite>(
    alloc: Global,
    arena: &'a Bump,
    image: &'a Image,
    log: &'a Log,
    book: &R,
    also: &[Pos],
    traces: &Traces,
    order: Order,
) -> Result<Formula<'a>, Memory>
    requires traced { IsTraced image.now log.now traces.now }
    requires order_of { IsOrderOf order log.now }
    requires valid { IsValid log.now }
    ensures { IfOk result (IsFormulaOf image.now log.now also.now) }
{
    let mut pool = TermPool::new(alloc, arena);
    let Paths {
        accesses,
        constraints,
        ..
    } = Paths::run(alloc, &mut pool, book, image, traces, log)?;
    let mut clauses = ClauseStore::new(alloc, arena);
    let known = known_of(alloc, &pool, order, accesses, also, &mut clauses)?;
    let mut encoder = Encoder {
        pool,
        blaster: Blaster::new(alloc),
        clauses,
    };
    add_all(
        &mut encoder,
        alloc,
        book,
        image,
        &known,
        constraints.as_slice(),
    )?;
    image.laws();
    valid_formulas_stand();
    Ok(Formula {
        clauses: encoder.clauses,
        ordering: Some(Ordering {
            order: known.order,
            vars: known.vars,
        }),
    })
}

/// The formula of an image and a log, in which those accesses have an order that need one, and those among `also`. Steps there that
/// are no access are passed over.
///
/// # Errors
///
/// `TooManyAccesses` where the walk has more than 512 accesses, with their number. `Memory`.
pub fn build_wide<'a, R: Rewrite>(
    alloc: Global,
    arena: &'a Bump,
    image: &'a Image,
    log: &'a Log,
    book: &R,
    also: &[Pos],
) -> Result<Formula<'a>, FormulaFault>
    requires valid { IsValid log.now }
    ensures formula { IfOk result (IsFormulaOf image.now log.now also.now) }
    ensures few { IfOk result (λ formula. HasFewAccesses image.now log.now) }
    ensures refused { IfErr result (IsRefusal image.now log.now) }
{
    let Some(traces) = Traces::build(alloc, image, log)? else {
        return Ok(refuted(alloc, arena, image, log, also)?);
    };
    let count = traces.access_count();
    if count > MOST_ACCESSES {
        return Err(FormulaFault::TooManyAccesses { count });
    }
    let Some(order) = Order::new(alloc, log)? else {
        return Ok(refuted(alloc, arena, image, log, also)?);
    };
    let formula = formula_of(alloc, arena, image, log, book, also, &traces, order)?;
    Ok(formula)
}

/// The formula in which those accesses alone have an order that need one.
///
/// # Errors
///
/// As above.
pub fn build<'a, R: Rewrite>(
    alloc: Global,
    arena: &'a Bump,
    image: &'a Image,
    log: &'a Log,
    book: &R,
) -> Result<Formula<'a>, FormulaFault>
    requires valid { IsValid log.now }
    ensures formula { IfOk result (IsFormulaOf image.now log.now []) }
    ensures few { IfOk result (λ formula. HasFewAccesses image.now log.now) }
    ensures refused { IfErr result (IsRefusal image.now log.now) }
{
    let formula = build_wide(alloc, arena, image, log, book, &[])?;
    Ok(formula)
}

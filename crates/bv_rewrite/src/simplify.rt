//! Terms made simpler by a book of rules.
ghost use Rattle.std.specs.Prelude.{◌<◌, length, IfOk};
ghost use Rattle.bv_terms.specs.Values.{KeepsTerms};
ghost use Rattle.bv_terms.specs.Variables.{KeepsVariables};
ghost use Rattle.bv_rewrite.specs.Simpler.{StandsFor};

use crate::rewrite::Rewrite;
use crate::walk::{Visit, follow, stands_for};
use bv_terms::node::TermId;
use bv_terms::pool::TermPool;
use indexmap::IndexMap;
use odr_list::memory::Memory;
use std::alloc::Global;

/// A term that can stand for the root: it has the root's width, the root's value under every assignment, and no
/// variable that doesn't occur in the root. From the leaves up each node that the root stands on is made anew by the
/// book, on what stands for its children. Each is met once, in a time that doesn't depend on the pool's other terms.
/// Older terms stay as they were, also where memory is wanting.
pub fn simplify<'a, R: Rewrite>(
    alloc: Global,
    pool: &mut TermPool<'a>,
    root: TermId,
    book: &R,
) -> Result<TermId, Memory>
    requires { root.number < length pool.old }
    ensures term { IfOk result (λ id. StandsFor pool.old pool.new root.number id.number) }
    ensures older { KeepsTerms pool.old pool.new }
    ensures variables { KeepsVariables pool.old pool.new }
{
    let mut done = IndexMap::new(alloc);
    let mut walk = Vec::new(alloc);
    walk.push(Visit::Enter(root))?;
    while let Some(visit) = walk.pop() {
        follow(pool, &mut walk, &mut done, visit, book)?;
    }
    Ok(stands_for(&done, root))
}

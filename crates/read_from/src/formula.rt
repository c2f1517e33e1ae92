//! A formula and its order variables.
use clause_store::store::ClauseStore;
use happens_before::order::Order;
use odr_list::memory::Memory;
use order_vars::order_vars::OrderVars;

/// The recorded order of a log, and the order of those of its accesses that have variables.
#[derive(Drop)]
pub struct Ordering {
    pub order: Order,
    pub vars: OrderVars,
}

/// Clauses, and what their order variables say. There is no ordering where the log's walk isn't defined or its calls don't fit;
/// the clauses are the empty one then.
#[derive(Drop)]
pub struct Formula<'a> {
    pub clauses: ClauseStore<'a>,
    pub ordering: Option<Ordering>,
}

/// Why there is no formula.
#[derive(Debug, Drop)]
pub enum FormulaFault {
    /// The walk has more than 512 accesses, which is their number.
    TooManyAccesses { count: u64 },
    Memory,
}

impl From<Memory> for FormulaFault {
    ghost use Rattle.std.specs.Prelude.{◌≡◌};
    ghost use Rattle.read_from.specs.declared.formula.FormulaFault.TheVariants as fault;

    ghost from_gives = { λ _ e. e ≡ fault.Memory };

    fn from(_error: Memory) -> FormulaFault {
        FormulaFault::Memory
    }
}

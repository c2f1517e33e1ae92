//! One rule, made of a closure.
ghost use Rattle.std.specs.Prelude.{◌≡◌, Some};
ghost use Rattle.bv_rewrite.specs.declared.view.Swap.{Swap};
ghost use Rattle.bv_rewrite.specs.declared.view.View.{View};
ghost use Rattle.bv_rewrite.specs.Right.{IsRight};

use crate::rewrite::Rewrite;
use crate::view::{Swap, View};

/// A closure that says what may stand in the place of a node with a view.
pub type Closure = Box<dyn Fn(View) -> Option<Swap>>;

/// A closure beside the fact that it may be called on every view, and that its answers are right.
#[derive(Drop)]
pub struct Rule {
    apply: Closure,
    ghost callable: { Closure.IsAlwaysCallable apply },
    ghost right: { (view : View) (swap : Swap) → Closure.post apply view (Some swap) → IsRight view swap },
}

impl Rule {
    /// The rule of a closure. Takes no memory.
    pub fn new(apply: Closure) -> Rule
        requires callable { Closure.IsAlwaysCallable apply }
        requires right { (view : View) (swap : Swap) → Closure.post apply view (Some swap) → IsRight view swap }
        ensures { result.apply ≡ apply }
    {
        Rule { apply }
    }
}

impl Rewrite for Rule {
    ghost answers = { λ rule view answer. Closure.post rule.apply view answer };

    fn swap(&self, view: View) -> Option<Swap> {
        (self.apply)(view)
    }
}

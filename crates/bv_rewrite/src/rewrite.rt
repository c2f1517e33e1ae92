//! Books of rules for terms, with the law that each of them keeps.
ghost use Rattle.std.specs.Prelude.{◌≡◌, ◌⊎◌, Option, None, Some, IfSome, IsSome, IsNone};
ghost use Rattle.bv_rewrite.specs.declared.view.Swap.{Swap};
ghost use Rattle.bv_rewrite.specs.declared.view.View.{View};
ghost use Rattle.bv_rewrite.specs.Right.{IsRight};

use crate::view::{Swap, View};

/// A book of rules, which may be asked about every view. What it answers has the node's width, and has the node's
/// value whatever values the children have that agree with the view.
pub trait Rewrite {
    /// What the book may answer to a view.
    ghost answers: { Self → View → Option Swap → Type 0 };

    /// What may stand in the place of a node with this view; None where no rule speaks of it. Takes no memory.
    fn swap(&self, view: View) -> Option<Swap>
        ensures right { IfSome result (IsRight view) }
        ensures answer { answers self.now view result };
}

/// The book without a rule.
#[derive(Clone, Copy, Debug, PartialEq, Eq)]
pub struct NoRules;

impl Rewrite for NoRules {
    ghost answers = { λ book view answer. answer ≡ None };

    fn swap(&self, view: View) -> Option<Swap> {
        None
    }
}

/// Two books, of which the first that answers counts.
#[derive(Clone, Copy, Debug)]
pub struct Book<A, B> {
    pub first: A,
    pub second: B,
}

impl<A: Rewrite, B: Rewrite> Rewrite for Book<A, B> {
    ghost answers = { λ book view answer. (A.answers book.first view answer × IsSome answer) ⊎ (A.answers book.first view None × B.answers book.second view answer) };

    fn swap(&self, view: View) -> Option<Swap> {
        match self.first.swap(view) {
            Some(swap) => Some(swap),
            None => self.second.swap(view),
        }
    }
}

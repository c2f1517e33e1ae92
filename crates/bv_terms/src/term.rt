//! What a pool keeps of a term.
use crate::node::Node;

/// A node and its width.
#[derive(Clone, Copy, Debug, PartialEq, Eq, Hash)]
pub struct Term<'a> {
    pub node: Node<'a>,
    pub width: u8,
}

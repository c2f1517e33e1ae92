/// What is known of a literal.
#[derive(Clone, Copy, Debug)]
pub enum Truth {
    Open,
    True,
    False,
}

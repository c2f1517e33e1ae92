use crate::options::OptionValues;
use crate::positionals::Positionals;

/// The positional words after the command, and the values of the options.
#[derive(Clone, Copy, Debug)]
pub struct Given<'a> {
    pub positionals: Positionals<'a>,
    pub options: OptionValues<'a>,
}

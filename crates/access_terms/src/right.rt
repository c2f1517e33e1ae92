//! What an access asks of the bytes that it touches.
ghost use Rattle.std.specs.Prelude.{◌≡◌};
ghost use Rattle.access_terms.specs.Rights.{allows, grants};

use elf_image::cell::Cell;
use elf_image::region::Perm;

/// A right that a byte of memory may have.
#[derive(Clone, Copy, Debug, PartialEq, Eq)]
pub enum Right {
    Read,
    Write,
}

impl Right {
    /// Whether the bytes of a region have this right.
    pub fn is_granted(self, perm: Perm) -> bool
        ensures { result ≡ grants self perm }
    {
        match self {
            Right::Read => perm.r,
            Right::Write => perm.w,
        }
    }

    /// Whether a byte has this right. None has one outside all regions and stacks.
    pub fn is_allowed(self, cell: Option<Cell>) -> bool
        ensures { result ≡ allows self cell }
    {
        match self {
            Right::Read => cell.is_some_and(|cell| cell.readable),
            Right::Write => cell.is_some_and(|cell| cell.writable),
        }
    }
}

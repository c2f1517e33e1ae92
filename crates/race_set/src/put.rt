//! Lists that take what is there.
ghost use Rattle.std.specs.Prelude.{◌≡◌, [], ◌∷◌, ◌++◌, OnOk, MatchOption};

use odr_list::list::List;
use odr_list::memory::Memory;

/// Appends an item, if there is one.
///
/// # Errors
///
/// `Memory` alone.
pub fn put<T: Drop>(item: Option<T>, into: &mut List<T>) -> Result<(), Memory>
    ensures { OnOk result (MatchOption item (into.new ≡ into.old) (λ x. into.new ≡ into.old ++ x ∷ [])) }
{
    match item {
        Some(item) => into.push(item),
        None => Ok(()),
    }
}

ghost use Rattle.std.specs.Prelude.{◌≡◌, ◌++◌, [], ◌∷◌, OnOk, OnErr};

use smallvec::SmallVec;
use std::alloc::{AllocError, Global};
use std::default::MadeWith;

/// Adds an item at the end. Where there is room, that is seen where the call stands: `SmallVec::push`,
/// which answers with the item where it fails, takes 34 instructions more, 3 % of a declared event.
#[inline(always)]
pub(crate) fn put<T: MadeWith<Global> + Drop, const N: usize>(
    items: &mut SmallVec<T, N>,
    item: T,
) -> Result<(), AllocError>
    ensures ok { OnOk result (items.new.items ≡ items.old.items ++ item ∷ []) }
    ensures err { OnErr result (items.new ≡ items.old) }
{
    if items.len() < items.capacity() {
        items.push_reserved(item);
        return Ok(());
    }
    items.push(item)?;
    Ok(())
}

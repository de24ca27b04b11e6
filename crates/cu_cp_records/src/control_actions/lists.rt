//! Lists of a few items. They are of any type, so that a caller has nothing to let go of where memory runs out.

ghost use Rattle.std.specs.Prelude.{◌≡◌, [], ◌∷◌, ◌++◌, IfOk};

use crate::control_contexts::Terminal;
use gnb_types::items::{Items, Memory};
use std::alloc::Global;

pub fn two<T: Drop>(alloc: Global, first: T, second: T) -> Result<Items<T>, Memory>
    ensures { IfOk result (λ items. items ≡ first ∷ second ∷ []) }
{
    let mut items = Items::one(alloc, first)?;
    items.push(second)?;
    Ok(items)
}

/// One item, and these after it.
pub fn with_first<T: Drop>(alloc: Global, first: T, more: Items<T>) -> Result<Items<T>, Memory>
    ensures { IfOk result (λ items. items ≡ first ∷ more) }
{
    let mut items = Items::one(alloc, first)?;
    items.extend(more)?;
    Ok(items)
}

/// These items, beside a copy of a terminal.
pub(crate) fn beside<T: Drop>(
    alloc: Global,
    terminal: &Terminal,
    items: Items<T>,
) -> Result<(Items<T>, Terminal), Memory>
    ensures { IfOk result (λ pair. (pair.0 ≡ items) × (pair.1 ≡ terminal.now)) }
{
    let copy = terminal.copy(alloc)?;
    Ok((items, copy))
}

//! The names of units, and a unit that is put under its name.

ghost use Rattle.std.specs.Prelude.{◌≡◌, IfOk, IfErr, OnOk};
ghost use Rattle.std.specs.Map.{keys_of};
ghost use Rattle.tables.specs.Tables.{put, IsSorted};
ghost use Rattle.unit_messages.specs.declared.steps.StepError.TheVariants as errors;

use gnb_types::items::{Items, Memory};
use std::alloc::Global;
use tables::table::Table;
use unit_messages::steps::StepError;

/// The keys of a table, in their order.
pub fn keys_in<K: Ord + Copy + Drop, V>(
    table: &Table<K, V>,
    alloc: Global,
) -> Result<Items<K>, Memory>
    ensures keys { IfOk result (λ keys. keys ≡ keys_of table.now) }
    ensures ordered { OnOk result (IsSorted K.cmp table.now) }
{
    let mut keys = Items::new(alloc);
    for (key, _) in table.iter() {
        keys.push(*key)?;
    }
    Ok(keys)
}

/// Puts a unit under its name, and gives what it gave. A body that gives what it owns to this call has nothing to drop at its own exits.
pub(crate) fn keep<K: Ord + Drop, V: Drop, T: Drop>(
    table: &mut Table<K, V>,
    name: K,
    unit: V,
    given: T,
) -> Result<T, StepError>
    ensures given { IfOk result (λ t. t ≡ given) }
    ensures ok { OnOk result (table.new ≡ put K.cmp table.old name unit) }
    ensures fails { IfErr result (λ error. error ≡ errors.Memory) }
{
    drop(table.put(name, unit)?);
    Ok(given)
}

//! Copies of SN statuses (TS 38.423, 9.1.1.4).

ghost use Rattle.std.specs.Prelude.{◌≡◌, IfOk};

use gnb_types::bits::Bits;
use gnb_types::items::{Items, Memory};
use gnb_types::plans::{SnStatus, StatusList};
use std::alloc::Global;

fn copy_bits(alloc: Global, bits: &Option<Bits>) -> Result<Option<Bits>, Memory>
    ensures { IfOk result (λ copy. copy ≡ bits.now) }
{
    match bits {
        Some(bits) => Ok(Some(Items::from_slice(alloc, bits.as_slice())?)),
        None => Ok(None),
    }
}

fn copy_status(alloc: Global, status: &SnStatus) -> Result<SnStatus, Memory>
    ensures { IfOk result (λ copy. copy ≡ status.now) }
{
    let ul_received = copy_bits(alloc, &status.ul_received)?;
    Ok(SnStatus {
        bearer: status.bearer,
        dl_next: status.dl_next,
        ul_first: status.ul_first,
        ul_received,
    })
}

/// The same statuses once more.
pub fn copy_statuses(alloc: Global, statuses: &StatusList) -> Result<StatusList, Memory>
    ensures { IfOk result (λ copy. copy ≡ statuses.now) }
{
    let mut copy = Items::new(alloc);
    for status in statuses.as_slice() {
        copy.push(copy_status(alloc, status)?)?;
    }
    Ok(copy)
}

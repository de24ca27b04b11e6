//! The packets that are stored, in the order of their COUNTs, and which of them are handed up.

ghost use Rattle.std.specs.Prelude.{◌≡◌, ◌+◌, ◌≤◌, ◌++◌, drop, IfOk};
ghost use Rattle.std.specs.Option.{option_map};
ghost use Rattle.tables.specs.Tables.{first_entry};
ghost use Rattle.pdcp.specs.Near.{last_count};
ghost use Rattle.pdcp_defs.specs.Receivers.{deliver_from};
ghost use Rattle.um_defs.specs.Receivers.{entry, entries};
ghost use Rattle.um.specs.um_pdcp.inside.Stored.{first_count, first_at, first_below, left_by, below, from};
ghost use Rattle.um.specs.um_pdcp.Stored.{AreGiven};

use gnb_types::items::Memory;
use gnb_types::octets::Octets;
use tables::table::Table;
use um_defs::types::out::{Out, Outs};

/// The least COUNT that is stored.
fn first_count(stored: &Table<u32, Octets>) -> Option<u32>
    ensures { result ≡ first_count stored.now }
{
    match stored.first() {
        Some((count, _)) => Some(*count),
        None => None,
    }
}

/// Takes the packet of the least COUNT out.
fn take_first(stored: &mut Table<u32, Octets>) -> Option<Out>
    ensures first { option_map entry result ≡ first_entry stored.old }
    ensures rest { stored.new ≡ drop 1 stored.old }
{
    // Its clause says that the COUNTs are in order.
    let _ = stored.len();
    let Some(count) = first_count(stored) else {
        return None;
    };
    let Some(packet) = stored.take(&count) else {
        return None;
    };
    Some(Out { count, packet })
}

/// Takes the packet of the least COUNT out, if it is this one.
fn take_at(stored: &mut Table<u32, Octets>, count: u32) -> Option<Out>
    ensures first { option_map entry result ≡ first_at count stored.old }
    ensures rest { stored.new ≡ left_by (first_at count stored.old) stored.old }
{
    let Some(first) = first_count(stored) else {
        return None;
    };
    if first != count {
        return None;
    }
    take_first(stored)
}

/// Takes the packet of the least COUNT out, if it is below this one.
fn take_below(stored: &mut Table<u32, Octets>, count: u32) -> Option<Out>
    ensures first { option_map entry result ≡ first_below count stored.old }
    ensures rest { stored.new ≡ left_by (first_below count stored.old) stored.old }
{
    let Some(first) = first_count(stored) else {
        return None;
    };
    if first >= count {
        return None;
    }
    take_first(stored)
}

/// Hands up the packets from `deliv` on without a gap, and gives the first COUNT after them.
pub fn hand_up(stored: &mut Table<u32, Octets>, deliv: u32, outs: &mut Outs) -> Result<u32, Memory>
    requires given { AreGiven stored.old }
    requires deliv { deliv ≤ last_count + 1 }
    ensures up { IfOk result (λ next. entries outs.new
        ≡ entries outs.old ++ (deliver_from deliv stored.old).packets) }
    ensures after { IfOk result (λ next. (deliver_from deliv stored.old).after
        ≡ record { deliv = next; stored = stored.new }) }
    ensures given { AreGiven stored.new }
    ensures next { IfOk result (λ next. next ≤ last_count + 1) }
{
    let mut next = deliv;
    while let Some(out) = take_at(stored, next) {
        outs.push(out)?;
        next += 1;
    }
    Ok(next)
}

/// Hands up the packets below a COUNT, whatever is missing between them.
pub(crate) fn hand_up_below(
    stored: &mut Table<u32, Octets>,
    count: u32,
    outs: &mut Outs,
) -> Result<(), Memory>
    ensures up { IfOk result (λ x. entries outs.new ≡ entries outs.old ++ below count stored.old) }
    ensures rest { IfOk result (λ x. stored.new ≡ from count stored.old) }
    ensures given { AreGiven stored.old → AreGiven stored.new }
{
    while let Some(out) = take_below(stored, count) {
        outs.push(out)?;
    }
    Ok(())
}

//! Lists of tunnels that are to name the bearers of a context.

ghost use Rattle.std.specs.Prelude.{◌≡◌, ◌&&◌, IfOk};
ghost use Rattle.unit_defs.specs.CuCpRows.{name_bearers};
ghost use Rattle.cu_cp_answers.specs.control_answers.Answers.{CopiesNamed};

use cu_cp_records::control_contexts::{Context, copy_tunnels};
use cu_cp_rows::control_targets::name_bearers;
use gnb_types::items::Memory;
use gnb_types::plans::TunnelList;
use std::alloc::Global;

/// A copy of a list that names the bearers of the context.
pub(crate) fn copy_named(
    alloc: Global,
    context: &Context,
    tunnels: &TunnelList,
) -> Result<Option<TunnelList>, Memory>
    ensures { IfOk result (λ copy. CopiesNamed (name_bearers context.now tunnels.now) tunnels.now copy) }
{
    if !name_bearers(alloc, context, tunnels)? {
        return Ok(None);
    }
    Ok(Some(copy_tunnels(alloc, tunnels)?))
}

/// Whether both lists name the bearers of the context.
pub(crate) fn both_name_bearers(
    alloc: Global,
    context: &Context,
    one: &TunnelList,
    other: &TunnelList,
) -> Result<bool, Memory>
    ensures { IfOk result (λ named. named
        ≡ (name_bearers context.now one.now && name_bearers context.now other.now)) }
{
    Ok(name_bearers(alloc, context, one)? && name_bearers(alloc, context, other)?)
}

pub(crate) fn copy_both(
    alloc: Global,
    one: &TunnelList,
    other: &TunnelList,
) -> Result<(TunnelList, TunnelList), Memory>
    ensures one { IfOk result (λ copies. copies.0 ≡ one.now) }
    ensures other { IfOk result (λ copies. copies.1 ≡ other.now) }
{
    let one = copy_tunnels(alloc, one)?;
    Ok((one, copy_tunnels(alloc, other)?))
}

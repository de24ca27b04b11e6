//! Nodes and lists.

ghost use Rattle.std.specs.Prelude.{◌≡◌, IfOk};
ghost use Rattle.std.specs.List.{list_any};
ghost use Rattle.unit_defs.specs.CuCpRecords.{same_node, has_unit};

use gnb_types::items::Memory;
use gnb_types::names::NodeId;
use gnb_types::plans::TunnelList;
use std::alloc::Global;

/// Whether these are the same node.
pub fn same_node(a: NodeId, b: NodeId) -> bool
    ensures { result ≡ same_node a b }
{
    a.cmp(&b).is_eq()
}

/// Whether the node is among these.
pub fn has_node(nodes: &[NodeId], node: NodeId) -> bool
    ensures { result ≡ has_unit nodes.now node }
{
    nodes.iter().any(|n| same_node(*n, node))
}

/// A copy of a list of tunnels.
pub fn copy_tunnels(alloc: Global, tunnels: &TunnelList) -> Result<TunnelList, Memory>
    ensures { IfOk result (λ copy. copy ≡ tunnels.now) }
{
    TunnelList::from_slice(alloc, tunnels.as_slice())
}

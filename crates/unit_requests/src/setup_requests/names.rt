//! The name of a node, as its setup request has it.

ghost use Rattle.std.specs.Prelude.{◌≡◌, IfOk};
ghost use Rattle.gnb_types.specs.Names.{node_text};

use gnb_types::items::Memory;
use gnb_types::names::NodeId;
use gnb_types::octets::Octets;
use std::alloc::Global;

/// The octets of a node's name.
pub fn node_name(alloc: Global, node: NodeId) -> Result<Octets, Memory>
    ensures { IfOk result (λ name. name ≡ node_text node) }
{
    let text = format!(in alloc; "{node}")?;
    Ok(Octets::from_vec(text.into_bytes()))
}

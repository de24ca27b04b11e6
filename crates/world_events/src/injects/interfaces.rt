//! Which nodes share an interface.

ghost use Rattle.std.specs.Prelude.{◌≡◌, ℕ};
ghost use Rattle.unit_defs.specs.Messages.{is_same_gnb, shares_interface};
ghost use Rattle.run_defs.specs.Conditions.{is_there, is_interface};
ghost use Rattle.run_defs.specs.UnitRuns.{Records};
ghost use Rattle.run_links.specs.Networks.{OctetCore, state_of};

use gnb_types::names::{Gnb, NodeId, UeId};
use run_links::network::Network;

fn is_same_gnb(a: Gnb, b: Gnb) -> bool
    ensures { result ≡ is_same_gnb a b }
{
    match (a, b) {
        (Gnb::A, Gnb::A) | (Gnb::B, Gnb::B) => true,
        (Gnb::A, Gnb::B) | (Gnb::B, Gnb::A) => false,
    }
}

/// Whether the CU-CP of this gNB shares an interface with a node.
fn joins_cu_cp(gnb: Gnb, node: NodeId) -> bool
    ensures { result ≡ shares_interface (NodeId.CuCp gnb) node }
{
    match node {
        NodeId::CuCp(other) => !is_same_gnb(gnb, other),
        NodeId::CuUp(other, _) | NodeId::Du(other, _) => is_same_gnb(gnb, other),
        NodeId::Core => true,
        NodeId::Ue(_) => false,
    }
}

/// Whether a unit of this gNB shares an interface with a node: with the CU-CP of its gNB.
fn joins_unit(gnb: Gnb, node: NodeId) -> bool
    ensures { (number : ℕ) → result ≡ shares_interface (NodeId.CuUp gnb number) node }
{
    match node {
        NodeId::CuCp(other) => is_same_gnb(other, gnb),
        NodeId::CuUp(_, _) | NodeId::Du(_, _) | NodeId::Core | NodeId::Ue(_) => false,
    }
}

/// Whether a DU of this gNB does: with each terminal too.
fn joins_du(gnb: Gnb, node: NodeId) -> bool
    ensures { (number : ℕ) → result ≡ shares_interface (NodeId.Du gnb number) node }
{
    match node {
        NodeId::CuCp(other) => is_same_gnb(other, gnb),
        NodeId::Ue(_) => true,
        NodeId::CuUp(_, _) | NodeId::Du(_, _) | NodeId::Core => false,
    }
}

/// Whether two nodes share an interface (TS 38.401, 6.1.2): a CU-CP with its units, with the other CU-CP and with the core; a DU with
/// a terminal.
fn shares_interface(from: NodeId, to: NodeId) -> bool
    ensures { result ≡ shares_interface from to }
{
    match from {
        NodeId::CuCp(gnb) => joins_cu_cp(gnb, to),
        NodeId::CuUp(gnb, _) => joins_unit(gnb, to),
        NodeId::Du(gnb, _) => joins_du(gnb, to),
        NodeId::Core => matches!(to, NodeId::CuCp(_)),
        NodeId::Ue(_) => matches!(to, NodeId::Du(_, _)),
    }
}

/// Whether a node is there: a terminal while it is attached, each other node always.
fn is_there(network: &Network, node: NodeId) -> bool
    ensures { (units : Records) (core : OctetCore) → result ≡ is_there (state_of units core network.now) node }
{
    match node {
        NodeId::Ue(ue) => network.is_attached(UeId(ue)),
        NodeId::CuCp(_) | NodeId::CuUp(_, _) | NodeId::Du(_, _) | NodeId::Core => true,
    }
}

/// Whether a message can come from one node to another.
pub(crate) fn is_interface(network: &Network, from: NodeId, to: NodeId) -> bool
    ensures { (units : Records) (core : OctetCore) → result ≡ is_interface (state_of units core network.now) from to }
{
    shares_interface(from, to) && is_there(network, from) && is_there(network, to)
}

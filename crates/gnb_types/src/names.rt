//! The names of gNBs, units, terminals and bearers (TS 38.401, 6.1), in this project's numbers.

ghost use Rattle.std.specs.Prelude.{◌≡◌, Some};
ghost use Rattle.gnb_types.specs.Nodes.{node_class, node_number};
ghost use Rattle.gnb_types.specs.Names.{gnb_text, node_text, ue_text, bearer_text, dir_text};

use std::cmp::Ordering;
use std::fmt;

/// A gNB.
#[derive(Clone, Copy, Debug, PartialEq, Eq)]
pub enum Gnb {
    A,
    B,
}

impl fmt::Display for Gnb {
    ghost output = { λ x. Some (gnb_text x) };

    fn fmt<W: fmt::Write>(&self, f: &mut fmt::Formatter<W>) -> fmt::Result {
        match self {
            Gnb::A => write!(f, "A"),
            Gnb::B => write!(f, "B"),
        }
    }
}

/// A terminal (UE), by its number from 1 to 16.
#[derive(Clone, Copy, Debug, PartialEq, Eq, PartialOrd, Ord)]
pub struct UeId(pub u8);

impl fmt::Display for UeId {
    ghost output = { λ x. Some (ue_text x) };

    fn fmt<W: fmt::Write>(&self, f: &mut fmt::Formatter<W>) -> fmt::Result {
        write!(f, "u{}", self.0)
    }
}

/// A radio bearer of a terminal, by its number from 1 to 8.
#[derive(Clone, Copy, Debug, PartialEq, Eq, PartialOrd, Ord)]
pub struct BearerId(pub u8);

impl fmt::Display for BearerId {
    ghost output = { λ x. Some (bearer_text x) };

    fn fmt<W: fmt::Write>(&self, f: &mut fmt::Formatter<W>) -> fmt::Result {
        write!(f, "b{}", self.0)
    }
}

/// A node: the CU-CP, a CU-UP or a DU of a gNB (both numbered 1 and 2), the core, or a terminal.
#[derive(Clone, Copy, PartialEq, Eq)]
pub enum NodeId {
    CuCp(Gnb),
    CuUp(Gnb, u8),
    Du(Gnb, u8),
    Core,
    Ue(u8),
}

impl NodeId {
    fn class(&self) -> u8
        ensures { result ≡ node_class self.now }
    {
        match self {
            NodeId::CuCp(Gnb::A) => 0,
            NodeId::CuUp(Gnb::A, _) => 1,
            NodeId::Du(Gnb::A, _) => 2,
            NodeId::CuCp(Gnb::B) => 3,
            NodeId::CuUp(Gnb::B, _) => 4,
            NodeId::Du(Gnb::B, _) => 5,
            NodeId::Core => 6,
            NodeId::Ue(_) => 7,
        }
    }

    fn number(&self) -> u8
        ensures { result ≡ node_number self.now }
    {
        match self {
            NodeId::CuUp(_, number) | NodeId::Du(_, number) | NodeId::Ue(number) => *number,
            NodeId::CuCp(_) | NodeId::Core => 0,
        }
    }
}

/// The nodes of gNB A, each kind in the order above, then those of B, the core, and the terminals.
impl Ord for NodeId {
    ghost use Rattle.gnb_types.specs.Nodes.{node_cmp};
    ghost use Rattle.gnb_types.specs.NodeOrder.{node_total, node_ties};
    ghost use Rattle.std.specs.Prelude.{refl};

    ghost cmp = { node_cmp };

    ghost total = { node_total };

    ghost matches_partial_cmp = { λ _ _. refl };

    ghost matches_eq = { node_ties };

    fn cmp(&self, other: &NodeId) -> Ordering {
        self.class()
            .cmp(&other.class())
            .then(self.number().cmp(&other.number()))
    }
}

impl PartialOrd for NodeId {
    ghost use Rattle.gnb_types.specs.Nodes.{node_cmp};
    ghost use Rattle.gnb_types.specs.NodeOrder.{node_total, node_ties};
    ghost use Rattle.std.specs.Cmp.{partial_order_from_agreeing_total};
    ghost use Rattle.std.specs.Ordering.{as_partial_cmp};
    ghost use Rattle.std.specs.Prelude.{refl};

    ghost partial_cmp = { as_partial_cmp node_cmp };

    ghost laws = { partial_order_from_agreeing_total node_cmp node_total (λ _ _. refl) node_ties };

    fn partial_cmp(&self, other: &NodeId) -> Option<Ordering> {
        Some(self.cmp(other))
    }
}

impl fmt::Display for NodeId {
    ghost output = { λ x. Some (node_text x) };

    fn fmt<W: fmt::Write>(&self, f: &mut fmt::Formatter<W>) -> fmt::Result {
        match self {
            NodeId::CuCp(gnb) => write!(f, "{gnb}.cp"),
            NodeId::CuUp(gnb, number) => write!(f, "{gnb}.up{number}"),
            NodeId::Du(gnb, number) => write!(f, "{gnb}.du{number}"),
            NodeId::Core => write!(f, "core"),
            NodeId::Ue(number) => write!(f, "u{number}"),
        }
    }
}

/// The direction of a packet: downlink or uplink.
#[derive(Clone, Copy, Debug, PartialEq, Eq, PartialOrd, Ord)]
pub enum Dir {
    Dl,
    Ul,
}

impl fmt::Display for Dir {
    ghost output = { λ x. Some (dir_text x) };

    fn fmt<W: fmt::Write>(&self, f: &mut fmt::Formatter<W>) -> fmt::Result {
        match self {
            Dir::Dl => write!(f, "dl"),
            Dir::Ul => write!(f, "ul"),
        }
    }
}

/// How many bits a PDCP sequence number has (TS 38.323, 6.3.2).
#[derive(Clone, Copy, PartialEq, Eq)]
pub enum SnBits {
    Len12,
    Len18,
}

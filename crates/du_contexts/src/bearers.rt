//! What a DU keeps of a terminal.

use gnb_types::names::{BearerId, NodeId, SnBits, UeId};
use std::marker::Model;
use tables::table::Table;

/// A bearer: the CU-UP and the TEID to which its uplink goes, the DU's own TEID for its downlink, the NR-U number that comes next, and
/// whether payloads are dropped until a frame with the restart mark.
#[derive(Drop)]
pub struct DuBearer {
    pub up: NodeId,
    pub uplink: u32,
    pub downlink: u32,
    pub awaited: u32,
    pub gap: bool,
}

impl Model for DuBearer {
    ghost use Rattle.unit_defs.specs.Du.{DuBearer};

    ghost Value = { DuBearer };

    ghost view = { λ b. record { up = b.up; uplink = b.uplink; downlink = b.downlink; awaited = b.awaited; gap = b.gap } };
}

/// The bearers of a terminal on the radio of an epoch. Contracts see the record of `unit_defs`.
#[derive(Drop)]
pub struct DuContext {
    pub(crate) epoch: u32,
    pub(crate) sn: SnBits,
    pub(crate) bearers: Table<BearerId, DuBearer>,
}

impl Model for DuContext {
    ghost use Rattle.unit_defs.specs.Du.{DuContext};

    ghost Value = { DuContext };

    ghost view = { λ c. record { epoch = c.epoch; sn = c.sn; bearers = c.bearers } };
}

/// Whose a tunnel is that ends at the DU.
#[derive(Drop)]
pub struct DuTunnel {
    pub ue: UeId,
    pub bearer: BearerId,
}

impl Model for DuTunnel {
    ghost use Rattle.unit_defs.specs.Du.{DuTunnel};

    ghost Value = { DuTunnel };

    ghost view = { λ t. record { ue = t.ue; bearer = t.bearer } };
}

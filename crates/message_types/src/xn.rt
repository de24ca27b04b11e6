//! XnAP (TS 38.423), between two CU-CPs, and the messages of a CU-CP with the core.

use gnb_types::names::{SnBits, UeId};
use gnb_types::octets::Octets;
use gnb_types::plans::{Peer, StatusList, TunnelList};

/// A message of XnAP. `TransportConfirm` is the profile's: it answers the three that have no response in the standard.
#[derive(PartialEq, Drop)]
pub enum XnMessage {
    /// Handover Preparation (8.2.1)
    HandoverRequest {
        ue: UeId,
        instance: u32,
        epoch: u32,
        bearers: u8,
        sn: SnBits,
        quota: u16,
        peer: Peer,
        du: u8,
        /// The name of the source: in version 2 of the profile alone.
        origin: Option<Octets>,
    },
    HandoverRequestAcknowledge {
        ue: UeId,
        instance: u32,
        peer: Peer,
        forward_down: TunnelList,
        forward_up: TunnelList,
    },
    HandoverPreparationFailure {
        ue: UeId,
        instance: u32,
        cause: u32,
    },
    /// SN Status Transfer (8.2.2)
    SnStatusTransfer {
        ue: UeId,
        instance: u32,
        statuses: StatusList,
    },
    /// Handover Cancel (8.2.3)
    HandoverCancel {
        ue: UeId,
        instance: u32,
    },
    /// UE Context Release (8.2.7)
    UeContextRelease {
        ue: UeId,
        instance: u32,
    },
    TransportConfirm {
        ue: UeId,
        instance: u32,
    },
}

/// A message of a CU-CP with the core, in place of the path switch of NGAP (TS 38.413, 8.4.4).
#[derive(PartialEq, Drop)]
pub enum CoreMessage {
    PathSwitchRequest {
        ue: UeId,
        instance: u32,
        peer: Peer,
        n3: TunnelList,
    },
    PathSwitchAcknowledge {
        ue: UeId,
        instance: u32,
    },
}

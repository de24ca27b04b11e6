//! E1AP (TS 37.483), between a CU-CP and a CU-UP.

use gnb_types::names::{SnBits, UeId};
use gnb_types::octets::Octets;
use gnb_types::plans::{Peer, StatusList, TunnelList};

/// A message of E1AP.
///
/// `mode` and `cause` are the indices of the profile's enumerations; `run_defs` and the units name them.
#[derive(Drop)]
pub enum E1Message {
    /// E1 Setup (8.2.3)
    E1SetupRequest {
        instance: u32,
        name: Octets,
    },
    E1SetupResponse {
        instance: u32,
    },
    /// Bearer Context Setup (8.3.1)
    BearerContextSetupRequest {
        ue: UeId,
        instance: u32,
        bearers: u8,
        sn: SnBits,
        quota: u16,
        forward: bool,
    },
    BearerContextSetupResponse {
        ue: UeId,
        instance: u32,
        uplinks: TunnelList,
        n3: TunnelList,
        forward_down: Option<TunnelList>,
        forward_up: Option<TunnelList>,
    },
    BearerContextSetupFailure {
        ue: UeId,
        instance: u32,
        cause: u32,
    },
    /// Bearer Context Modification (8.3.2)
    BearerContextModificationRequest {
        ue: UeId,
        instance: u32,
        downlinks: Option<TunnelList>,
        mode: u32,
        peer: Option<Peer>,
        forward_down: Option<TunnelList>,
        forward_up: Option<TunnelList>,
        statuses: Option<StatusList>,
        du: Option<u8>,
    },
    BearerContextModificationResponse {
        ue: UeId,
        instance: u32,
        uplinks: Option<TunnelList>,
        statuses: Option<StatusList>,
    },
    BearerContextModificationFailure {
        ue: UeId,
        instance: u32,
        cause: u32,
    },
    /// Bearer Context Release (8.3.5)
    BearerContextReleaseCommand {
        ue: UeId,
        instance: u32,
        is_final: bool,
    },
    BearerContextReleaseComplete {
        ue: UeId,
        instance: u32,
    },
}

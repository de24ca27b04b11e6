//! F1AP (TS 38.473), between a CU-CP and a DU.

use gnb_types::names::{SnBits, UeId};
use gnb_types::octets::Octets;
use gnb_types::plans::{Peer, TunnelList};

/// A message of F1AP, with its containers as octets.
pub type F1Message = F1<Octets>;

/// A message of F1AP; `C` stands for a container.
#[derive(Drop)]
pub enum F1<C> {
    /// F1 Setup (8.2.3)
    F1SetupRequest {
        instance: u32,
        name: Octets,
    },
    F1SetupResponse {
        instance: u32,
    },
    /// UE Context Setup (8.3.1)
    UeContextSetupRequest {
        ue: UeId,
        instance: u32,
        epoch: u32,
        uplinks: TunnelList,
        sn: SnBits,
        peer: Peer,
    },
    UeContextSetupResponse {
        ue: UeId,
        instance: u32,
        downlinks: TunnelList,
    },
    /// UE Context Modification (8.3.4)
    UeContextModificationRequest {
        ue: UeId,
        instance: u32,
        epoch: u32,
    },
    UeContextModificationResponse {
        ue: UeId,
        instance: u32,
        downlinks: TunnelList,
    },
    /// UE Context Release (8.3.3)
    UeContextReleaseCommand {
        ue: UeId,
        instance: u32,
    },
    UeContextReleaseComplete {
        ue: UeId,
        instance: u32,
    },
    /// DL RRC Message Transfer (8.4.2)
    DlRrcMessageTransfer {
        ue: UeId,
        container: C,
    },
    /// UL RRC Message Transfer (8.4.3)
    UlRrcMessageTransfer {
        ue: UeId,
        container: C,
    },
}

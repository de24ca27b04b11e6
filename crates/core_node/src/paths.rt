//! Where the downlink of a terminal goes.

ghost use Rattle.std.specs.Prelude.{◌≡◌, ◌++◌, map, OnOk};
ghost use Rattle.unit_defs.specs.Core.{end_of};
ghost use Rattle.unit_defs.specs.Messages.{teid_of};
ghost use Rattle.unit_defs.specs.octet_defs.Codec.{Codec, octet_way};
ghost use Rattle.unit_defs.specs.octet_defs.Writing.{outputs_of};

use gnb_types::items::Memory;
use gnb_types::names::{BearerId, Dir, NodeId, UeId};
use gnb_types::outputs::{Output, Outputs, Tag};
use gnb_types::plans::TunnelList;
use link_packets::write_end_marker;
use std::alloc::Global;
use std::marker::Model;

/// The CU-UP to which the downlink of a terminal goes, and the N3 tunnel of each bearer.
#[derive(Drop)]
pub struct CorePath {
    pub up: NodeId,
    pub n3: TunnelList,
}

impl Model for CorePath {
    ghost use Rattle.unit_defs.specs.Core.{CorePath};

    ghost Value = { CorePath };

    ghost view = { λ p. record { up = p.up; n3 = p.n3 } };
}

impl CorePath {
    /// The N3 tunnel of a bearer, 0 where it has none.
    pub fn teid(&self, bearer: BearerId) -> u32
        ensures { result ≡ teid_of self.now.n3 bearer }
    {
        for tunnel in self.n3.as_slice() {
            if tunnel.bearer.0 == bearer.0 {
                return tunnel.teid;
            }
        }
        0
    }

    /// An End Marker goes on each of its tunnels.
    pub(crate) fn end(&self, alloc: Global, ue: UeId, outputs: &mut Outputs) -> Result<(), Memory>
        ensures { (codec : Codec) → OnOk result (outputs.new
            ≡ outputs.old ++ outputs_of (map (end_of (octet_way codec) ue self.now.up) self.now.n3)) }
    {
        for tunnel in self.n3.as_slice() {
            let bytes = write_end_marker(alloc, tunnel.teid)?;
            outputs.push(Output::Packet {
                to: self.up,
                teid: tunnel.teid,
                ue,
                bearer: tunnel.bearer,
                dir: Dir::Dl,
                count: Tag::Absent,
                bytes,
            })?;
        }
        Ok(())
    }
}

//! Whether octets decode as what comes there.

ghost use Rattle.std.specs.Prelude.{◌≡◌, IfOk};
ghost use Rattle.run_defs.specs.UnitRuns.{is_read, unit_world};

use gnb_types::items::Memory;
use gnb_types::keys::TunnelEnd;
use gnb_types::names::NodeId;
use gnb_types::octets::Octets;
use unit_messages::MessageCodec;
use unit_messages::lawful_codecs::LawfulCodec;
use world_steps::Units;
use world_steps::run_state::RunState;

/// Whether octets are a message from one node to another.
pub(crate) fn is_message<U: Units<C> + Drop, C: MessageCodec + Drop>(
    run_state: &RunState<U, C>,
    from: NodeId,
    to: NodeId,
    octets: &Octets,
) -> Result<bool, Memory>
    ensures { IfOk result (λ b. b ≡ is_read C.codec (C.codec.read from to octets.now)) }
{
    match run_state
        .codec
        .read(run_state.alloc, from, to, octets.as_slice())?
    {
        Ok(message) => {
            drop(message);
            Ok(true)
        }
        Err(_) => Ok(false),
    }
}

/// Whether octets are an item of a tunnel.
#[tactic(auto, unfolding(tables::specs::Tables::at, tables::specs::Tables::find))]
pub(crate) fn is_item<U: Units<C> + Drop, C: LawfulCodec + Drop>(
    run_state: &RunState<U, C>,
    end: TunnelEnd,
    octets: &Octets,
) -> bool
    requires { U.ready run_state.now.units }
    ensures { result ≡ (unit_world C.codec U.answer).is_item (U.records run_state.now.units) end octets.now }
{
    match end.node {
        NodeId::CuUp(_, _) => match run_state.units.cu_user(end.node) {
            Some(user) => user.decodes(end.teid, octets.as_slice()),
            None => false,
        },
        NodeId::Du(_, _) => match run_state.units.du_node(end.node) {
            Some(node) => node.decodes(end.teid, octets.as_slice()),
            None => false,
        },
        NodeId::CuCp(_) | NodeId::Ue(_) | NodeId::Core => false,
    }
}

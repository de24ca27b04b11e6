//! Laws: every run delivers. Each function does nothing: its contract is the law.

ghost use Rattle.gnb_types.specs.Orders.{tunnel_cmp};
ghost use Rattle.gnb_types.specs.declared.keys.TunnelEnd.{TunnelEnd};
ghost use Rattle.gnb_types.specs.declared.names.BearerId.{BearerId};
ghost use Rattle.gnb_types.specs.declared.names.Dir.TheVariants.{Dl, Ul};
ghost use Rattle.gnb_types.specs.declared.names.Gnb.{Gnb};
ghost use Rattle.gnb_types.specs.declared.names.NodeId.TheVariants.{CuUp};
ghost use Rattle.gnb_types.specs.declared.names.NodeId.{NodeId};
ghost use Rattle.gnb_types.specs.declared.names.UeId.{UeId};
ghost use Rattle.law_downlink_scripts.specs.delivers.Awaited.{DeliversIn};
ghost use Rattle.law_downlink_scripts.specs.run_delivers.Next.{AreTheirOwn, IsNextAt, IsNextBy};
ghost use Rattle.proof_run_steps.specs.steps.Reached.{reached};
ghost use Rattle.message_types.specs.declared.rrc.Token.{Token};
ghost use Rattle.run_defs.specs.Conditions.{ready_home};
ghost use Rattle.run_defs.specs.Runs.{happens, plain_world, Reading};
ghost use Rattle.run_defs.specs.States.{entity, has_bearer, new_state, radio_of, State};
ghost use Rattle.run_defs.specs.Units.{ue_of, cu_up_of};
ghost use Rattle.run_defs.specs.Written.{Written};
ghost use Rattle.scenario_text.specs.declared.event.Event.TheVariants.{Air, Get};
ghost use Rattle.scenario_text.specs.declared.event.Event.{Event};
ghost use Rattle.std.specs.Prelude.{List, Some, true, ℕ, ◌∷◌, ◌≡◌};
ghost use Rattle.tables.specs.Tables.{find};
ghost use Rattle.transport_defs.specs.Links.{nth};
ghost use Rattle.transport_defs.specs.declared.Item.{Item};
ghost use Rattle.unit_defs.specs.Ue.{UeNode};
ghost use Rattle.unit_defs.specs.Ways.{Load, Message, packet_pdu, Pdu};

/// In every run the record of a terminal is of its plan.
pub fn terminals_are_their_own()
    ensures { (reading : Reading) (events : List Event)
        (t : State (Message Token) Token (Written (Load Pdu)) (Written Pdu))
        → reached (plain_world reading) events new_state ≡ Some t → AreTheirOwn t.units }
{}

/// After every list of events: where the oldest item of a CU-UP's tunnel has the packet of the COUNT that its bearer delivers
/// next, the context is neither frozen nor released, and the item isn't held, then the event that gets it delivers it. And where
/// the oldest uncarried PDU of a terminal's radio has the packet of the COUNT that its bearer delivers next, and there is room for
/// it, then the event that carries it delivers it.
pub fn what_is_awaited_is_delivered()
    ensures up { (reading : Reading) (events : List Event)
        (t : State (Message Token) Token (Written (Load Pdu)) (Written Pdu))
        (gnb : Gnb) (number teid : ℕ) (item : Item (Written (Load Pdu)))
        (rest : List (Item (Written (Load Pdu)))) (count : ℕ) (packet : List ℕ)
        → reached (plain_world reading) events new_state ≡ Some t
        → find tunnel_cmp t.tunnels (record { node = CuUp gnb number; teid = teid }) ≡ Some (item ∷ rest)
        → (next : IsNextAt (cu_up_of t.units gnb number) teid item.content.says count packet)
        → DeliversIn (entity next.tunnel.ue next.tunnel.bearer Ul) count packet
        (happens (plain_world reading) (Get (CuUp gnb number) teid) t) }
    ensures down { (reading : Reading) (events : List Event)
        (t : State (Message Token) Token (Written (Load Pdu)) (Written Pdu))
        (ue : UeId) (bearer : BearerId) (home : NodeId) (item : Item (Written Pdu)) (u : UeNode)
        (count : ℕ) (packet : List ℕ)
        → reached (plain_world reading) events new_state ≡ Some t
        → has_bearer t ue bearer ≡ true → ready_home t ue ≡ Some home
        → nth (radio_of t (entity ue bearer Dl)).items (radio_of t (entity ue bearer Dl)).carried
        ≡ Some item
        → item.content.says ≡ packet_pdu count packet → ue_of t.units ue ≡ Some u
        → IsNextBy u bearer count
        → DeliversIn (entity ue bearer Dl) count packet (happens (plain_world reading) (Air ue bearer Dl) t) }
{}

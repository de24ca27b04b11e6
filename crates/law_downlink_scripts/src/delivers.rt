//! Laws: a run delivers. Each function does nothing: its contract is the law.

ghost use Rattle.gnb_types.specs.Orders.{tunnel_cmp};
ghost use Rattle.gnb_types.specs.declared.keys.EntityKey.{EntityKey};
ghost use Rattle.gnb_types.specs.declared.keys.TunnelEnd.{TunnelEnd};
ghost use Rattle.gnb_types.specs.declared.names.BearerId.{BearerId};
ghost use Rattle.gnb_types.specs.declared.names.Dir.TheVariants.{Dl, Ul};
ghost use Rattle.gnb_types.specs.declared.names.Gnb.{Gnb};
ghost use Rattle.gnb_types.specs.declared.names.NodeId.TheVariants.{CuUp};
ghost use Rattle.gnb_types.specs.declared.names.NodeId.{NodeId};
ghost use Rattle.gnb_types.specs.declared.names.UeId.{UeId};
ghost use Rattle.law_downlink_scripts.specs.delivers.Awaited.{DeliversIn, IsAwaitedAt, IsAwaitedBy, IsDeliveredBy};
ghost use Rattle.message_types.specs.declared.rrc.Token.{Token};
ghost use Rattle.run_defs.specs.Conditions.{ready_home};
ghost use Rattle.run_defs.specs.Events.{carry_done, get_done};
ghost use Rattle.run_defs.specs.Runs.{happens, plain_world, Reading};
ghost use Rattle.run_defs.specs.States.{entity, has_bearer, radio_of, State};
ghost use Rattle.run_defs.specs.Units.{ue_of, cu_up_of};
ghost use Rattle.run_defs.specs.Written.{Written};
ghost use Rattle.scenario_text.specs.declared.event.Event.TheVariants.{Air, Get};
ghost use Rattle.std.specs.Prelude.{length, List, Some, true, ℕ, ◌∷◌, ◌≡◌, ◌≤◌};
ghost use Rattle.tables.specs.Tables.{find};
ghost use Rattle.transport_defs.specs.Links.{most_control_messages, nth};
ghost use Rattle.transport_defs.specs.declared.Item.{Item};
ghost use Rattle.unit_defs.specs.Ue.{UeNode};
ghost use Rattle.unit_defs.specs.Ways.{Load, Message, packet_pdu, Pdu};

/// From every state: an item with the packet that a CU-UP's bearer awaits from its terminal, or from the CU-UP before it,
/// where the context is neither frozen nor released and doesn't hold the item, is delivered in the step that takes it, by
/// the event that gets it and where settling gets it.
pub fn a_cu_up_delivers_what_it_awaits()
    ensures taken { (reading : Reading)
        (s : State (Message Token) Token (Written (Load Pdu)) (Written Pdu))
        (gnb : Gnb) (number teid : ℕ) (item : Item (Written (Load Pdu)))
        (rest : List (Item (Written (Load Pdu))))
        (count : ℕ) (packet : List ℕ) → length s.bag.control_messages ≤ most_control_messages
        → (awaited : IsAwaitedAt (cu_up_of s.units gnb number) teid item.content.says count packet)
        → IsDeliveredBy (entity awaited.tunnel.ue awaited.tunnel.bearer Ul) count packet
        (get_done (plain_world reading) (record { node = CuUp gnb number; teid = teid }) item rest
        s) }
    ensures got { (reading : Reading)
        (s : State (Message Token) Token (Written (Load Pdu)) (Written Pdu))
        (gnb : Gnb) (number teid : ℕ) (item : Item (Written (Load Pdu)))
        (rest : List (Item (Written (Load Pdu))))
        (count : ℕ) (packet : List ℕ) → length s.bag.control_messages ≤ most_control_messages
        → find tunnel_cmp s.tunnels (record { node = CuUp gnb number; teid = teid }) ≡ Some (item ∷ rest)
        → (awaited : IsAwaitedAt (cu_up_of s.units gnb number) teid item.content.says count packet)
        → DeliversIn (entity awaited.tunnel.ue awaited.tunnel.bearer Ul) count packet
        (happens (plain_world reading) (Get (CuUp gnb number) teid) s) }
{}

/// The same of a PDU with the packet that a terminal's bearer awaits, where it has room, when the radio carries it.
pub fn a_terminal_delivers_what_it_awaits()
    ensures taken { (reading : Reading)
        (s : State (Message Token) Token (Written (Load Pdu)) (Written Pdu))
        (ue : UeId) (bearer : BearerId) (home : NodeId) (item : Item (Written Pdu)) (u : UeNode)
        (count : ℕ) (packet : List ℕ) → length s.bag.control_messages ≤ most_control_messages
        → item.key ≡ entity ue bearer Dl → item.content.says ≡ packet_pdu count packet
        → ue_of s.units ue ≡ Some u → IsAwaitedBy u bearer count
        → IsDeliveredBy (entity u.plan.ue bearer Dl) count packet
        (carry_done (plain_world reading) (entity ue bearer Dl) home item s) }
    ensures aired { (reading : Reading)
        (s : State (Message Token) Token (Written (Load Pdu)) (Written Pdu))
        (ue : UeId) (bearer : BearerId) (home : NodeId) (item : Item (Written Pdu)) (u : UeNode)
        (count : ℕ) (packet : List ℕ) → length s.bag.control_messages ≤ most_control_messages
        → has_bearer s ue bearer ≡ true → ready_home s ue ≡ Some home
        → nth (radio_of s (entity ue bearer Dl)).items (radio_of s (entity ue bearer Dl)).carried
        ≡ Some item
        → item.key ≡ entity ue bearer Dl → item.content.says ≡ packet_pdu count packet
        → ue_of s.units ue ≡ Some u → IsAwaitedBy u bearer count
        → DeliversIn (entity u.plan.ue bearer Dl) count packet
        (happens (plain_world reading) (Air ue bearer Dl) s) }
{}

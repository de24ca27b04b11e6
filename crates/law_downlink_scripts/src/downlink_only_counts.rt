//! Laws of COUNTs in runs in which no unit is told anything. Each function does nothing: its contract is the law.

ghost use Rattle.std.specs.Prelude.{◌≡◌, ◌==◌, true, false, List, Some};
ghost use Rattle.std.specs.List.{AllByRecursion};
ghost use Rattle.gnb_types.specs.declared.names.BearerId.{BearerId};
ghost use Rattle.gnb_types.specs.declared.names.Dir.TheVariants.{Dl};
ghost use Rattle.gnb_types.specs.declared.names.NodeId.{NodeId};
ghost use Rattle.gnb_types.specs.declared.names.UeId.{UeId};
ghost use Rattle.law_downlink_scripts.specs.downlink_only_counts.Placed.{CountsArePlaces, DeliversNext};
ghost use Rattle.law_downlink_scripts.specs.downlink_only_runs.Scripts.{IsDownlinkOnly};
ghost use Rattle.proof_run_steps.specs.steps.Reached.{reached};
ghost use Rattle.message_types.specs.declared.rrc.Token.{Token};
ghost use Rattle.run_defs.specs.Runs.{happens, plain_world, Reading, Run};
ghost use Rattle.run_defs.specs.Conditions.{ready_home};
ghost use Rattle.run_defs.specs.Units.{ue_of};
ghost use Rattle.run_defs.specs.States.{entity, has_bearer, new_state, radio_of, State};
ghost use Rattle.run_defs.specs.Written.{Written};
ghost use Rattle.scenario_text.specs.declared.event.Event.TheVariants.{Air};
ghost use Rattle.scenario_text.specs.declared.event.Event.{Event};
ghost use Rattle.transport_defs.specs.declared.Item.{Item};
ghost use Rattle.transport_defs.specs.Links.{nth};
ghost use Rattle.unit_defs.specs.Ue.{UeNode};
ghost use Rattle.unit_defs.specs.Ways.{Load, Message, Pdu};

/// In every state to which a run comes of terminals that are set up without messages, of packets that are offered down, of items that
/// are got, carried and confirmed, and of questions: each packet with a COUNT that stands on a tunnel to a DU, or that a radio is
/// still to carry down, is the packet of this place, counted from 0, among those offered so far at its terminal and bearer.
pub fn counts_are_places()
    ensures { (reading : Reading) (events : List Event) → AllByRecursion IsDownlinkOnly events
        → (t : State (Message Token) Token (Written (Load Pdu)) (Written Pdu))
        → reached (plain_world reading) events new_state ≡ Some t
        → CountsArePlaces t (Run reading events).events }
{}

/// And each PDU that such a radio carries down is delivered, as the packet that was offered after those that were delivered, with its
/// place as its COUNT, where the terminal's quota isn't 0: none is taken and not delivered.
pub fn what_is_carried_is_delivered()
    ensures { (reading : Reading) (events : List Event) → AllByRecursion IsDownlinkOnly events
        → (t : State (Message Token) Token (Written (Load Pdu)) (Written Pdu))
        → reached (plain_world reading) events new_state ≡ Some t
        → (ue : UeId) (bearer : BearerId) (home : NodeId) (item : Item (Written Pdu)) (u : UeNode)
        → has_bearer t ue bearer ≡ true → ready_home t ue ≡ Some home
        → nth (radio_of t (entity ue bearer Dl)).items (radio_of t (entity ue bearer Dl)).carried
        ≡ Some item
        → ue_of t.units ue ≡ Some u → u.plan.quota == 0 ≡ false
        → DeliversNext (entity ue bearer Dl) (Run reading events).events
        (happens (plain_world reading) (Air ue bearer Dl) t) }
{}

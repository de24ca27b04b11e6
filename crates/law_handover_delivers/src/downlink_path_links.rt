//! Laws of what stands on the links between a CU-UP and a terminal's radio down in a run, after steps of others. Each function does nothing:
//! its contract is the law.

ghost use Rattle.bearer_defs.specs.chain_defs.Models.{Model};
ghost use Rattle.gnb_types.specs.declared.names.BearerId.{BearerId};
ghost use Rattle.gnb_types.specs.declared.names.Gnb.{Gnb};
ghost use Rattle.gnb_types.specs.declared.names.UeId.{UeId};
ghost use Rattle.proof_node_orders.specs.du_inputs.Changes.{DuModel, model_of};
ghost use Rattle.proof_bearer_refinement.specs.f1u_frames.Frames.{du_end};
ghost use Rattle.law_tunnels_are_owned.specs.owner_facts.Owned.{DuOwns};
ghost use Rattle.proof_bearer_refinement.specs.downlink_radio.Down.{down_key, IsDown, Puts, Stays};
ghost use Rattle.proof_run_steps.specs.radio_steps.Radios.{on_air};
ghost use Rattle.proof_bearer_refinement.specs.uplink_radio.Radio.{IsFrameStep, IsRadio, RunState, RunCause};
ghost use Rattle.proof_run_steps.specs.steps.Causes.{count_of, first_of, node_of};
ghost use Rattle.proof_bearer_refinement.specs.run_unit_inputs.Happenings.{DuRecord};
ghost use Rattle.proof_run_steps.specs.tunnel_steps.Standing.{after_taking, standing};
ghost use Rattle.proof_bearer_refinement.specs.refinement_facts.Refinements.{RunItem};
ghost use Rattle.proof_bearer_refinement.specs.runs.Fair.{IsFair};
ghost use Rattle.law_terminals_are_isolated.specs.own_steps.Own.{IsActed};
ghost use Rattle.law_handover_delivers.specs.downlink_path_links.Links.{IsFrom, IsNoCuUp, IsNoDu, Waits};
ghost use Rattle.message_types.specs.declared.rrc.Token.{Token};
ghost use Rattle.run_defs.specs.Lines.{RunLine};
ghost use Rattle.run_defs.specs.Runs.{plain_world, Reading};
ghost use Rattle.run_defs.specs.States.{goes};
ghost use Rattle.run_defs.specs.Steps.{carried_out};
ghost use Rattle.transport_defs.specs.Links.{Radio};
ghost use Rattle.run_defs.specs.Units.{Units};
ghost use Rattle.run_defs.specs.Written.{Written};
ghost use Rattle.scenario_text.specs.declared.event.Event.{Event};
ghost use Rattle.std.specs.Ordering.{nat_cmp};
ghost use Rattle.std.specs.Prelude.{List, Some, ◌≡◌, ℕ};
ghost use Rattle.tables.specs.Tables.{find};
ghost use Rattle.unit_defs.specs.Ways.{Message, Pdu};

/// In each fair state, such as a run passes: after a step of any node but a CU-UP, on a tunnel of a DU that is open then stands what stood
/// there, less the item that the step takes, or nothing.
pub fn others_put_nothing_there()
    ensures { (reading : Reading) (event : Event) (s t : RunState) (gnb : Gnb) (number teid : ℕ)
        (cause : RunCause) (outputs : Puts) (units : Units (Message Token) Token)
        (lines : List (RunLine (Message Token)))
        → IsFair s → IsActed (plain_world reading) event s cause outputs units
        → carried_out (plain_world reading) (node_of cause) (count_of cause)
        (first_of (plain_world reading) cause) outputs units s ≡ goes lines t
        → IsNoCuUp (node_of cause) → let end = du_end gnb number teid in
        (items : List RunItem) → standing t end ≡ Some items
        → IsFrom (after_taking end cause (standing s end)) items }
{}

/// And after a step of any node but a DU and the terminal, the same packets wait on the terminal's radio down, which is connected in the same
/// epoch. What was carried on a radio, and what waits there, is told by what stands there.
pub fn the_same_waits_there()
    ensures waits { (reading : Reading) (event : Event) (s t : RunState) (ue : UeId) (bearer : BearerId)
        (d : Model) (cause : RunCause) (outputs : Puts) (units : Units (Message Token) Token)
        → IsFair s → IsActed (plain_world reading) event s cause outputs units
        → Stays (down_key ue bearer) cause → IsFrameStep reading s t ue bearer cause outputs units
        → IsNoDu (node_of cause) → (h : IsDown (on_air s (down_key ue bearer)) d)
        → Waits (on_air t (down_key ue bearer)) d h.waits (on_air s (down_key ue bearer)).epoch }
    ensures one { (r : Radio (Written Pdu)) (known more : List ℕ) (waits others : List (ℕ × List ℕ))
        → IsRadio r known waits → IsRadio r more others → (known ≡ more) × (waits ≡ others) }
{}

/// The downlink tunnel of a DU's bearer is open as this bearer's, and no other tunnel there is.
pub fn a_tunnel_of_a_du_is_its_bearers()
    ensures { (ue : UeId) (bearer : BearerId) (r : DuRecord) (home : DuModel)
        → DuOwns r → model_of r ue bearer ≡ Some home
        → (find nat_cmp r.tunnels home.bearer.downlink ≡ Some (record { ue = ue; bearer = bearer }))
        × ((teid : ℕ) → find nat_cmp r.tunnels teid ≡ Some (record { ue = ue; bearer = bearer })
        → home.bearer.downlink ≡ teid) }
{}

//! Laws of what a DU puts on the radio down of a bearer, in a run. Each function does nothing: its contract is the law.

ghost use Rattle.bearer_defs.specs.chain_defs.Models.{Model};
ghost use Rattle.gnb_types.specs.declared.names.BearerId.{BearerId};
ghost use Rattle.gnb_types.specs.declared.names.Gnb.{Gnb};
ghost use Rattle.gnb_types.specs.declared.names.UeId.{UeId};
ghost use Rattle.law_downlink_order.specs.path.Paths.{Frame, taken_by};
ghost use Rattle.proof_node_orders.specs.du_inputs.Changes.{change_by, DuModel, model_of, takes};
ghost use Rattle.proof_node_orders.specs.du_puts.Inputs.{IsInOrder};
ghost use Rattle.proof_bearer_refinement.specs.du_radios.Puts.{AreDown, packets_by};
ghost use Rattle.proof_bearer_refinement.specs.du_puts.Puts.{IsDuStep};
ghost use Rattle.proof_bearer_refinement.specs.downlink_radio.Down.{down_key, packets_down};
ghost use Rattle.proof_run_steps.specs.radio_steps.Radios.{on_air};
ghost use Rattle.proof_bearer_refinement.specs.uplink_radio.Radio.{IsFrameStep, RunCause, RunState};
ghost use Rattle.proof_bearer_refinement.specs.run_unit_inputs.Happenings.{DuRecord};
ghost use Rattle.proof_run_steps.specs.steps.Causes.{Stands};
ghost use Rattle.message_types.specs.declared.rrc.Token.{Token};
ghost use Rattle.run_defs.specs.Runs.{plain_way, Reading, taken_of};
ghost use Rattle.run_defs.specs.States.{Lengths, sn_of};
ghost use Rattle.run_defs.specs.Units.{du_of, with_du};
ghost use Rattle.run_defs.specs.Written.{written_put};
ghost use Rattle.scenario_text.specs.declared.event.Event.{Event};
ghost use Rattle.std.specs.Ordering.{nat_cmp};
ghost use Rattle.std.specs.Prelude.{[], Bool, List, map, Option, Some, ◌≡◌, ◌∷◌, ℕ};
ghost use Rattle.tables.specs.Tables.{find};
ghost use Rattle.unit_defs.specs.Du.{du_acts, DuBearer};
ghost use Rattle.unit_defs.specs.Ways.{frame, gives, Input, Message, Output, packet_input, Pdu};

/// Whatever a DU is given, the packets that it puts on a bearer's radio down are what the frame carries that it takes, where that radio is
/// connected in the epoch of the DU's context, and the frame isn't in a gap; else none. A frame on a tunnel that is the bearer's is taken.
pub fn a_du_puts_frames_on_the_radio()
    ensures puts { (ue : UeId) (bearer : BearerId) (r left : DuRecord) (input : Input Token Pdu)
        (outputs : List (Output (Message Token) Pdu)) (lengths : Lengths) (at : Option ℕ)
        → IsInOrder r ue → du_acts plain_way r input ≡ gives outputs left
        → packets_down (down_key ue bearer) at (map (written_put lengths) outputs)
        ≡ packets_by at (change_by plain_way ue bearer r input) (model_of r ue bearer) }
    ensures frame { (ue : UeId) (bearer : BearerId) (r : DuRecord) (teid : ℕ) (poll restart : Bool)
        (number : ℕ) (pdu : Option Pdu)
        → find nat_cmp r.tunnels teid ≡ Some (record { ue = ue; bearer = bearer })
        → change_by plain_way ue bearer r
        (packet_input teid (taken_of (frame poll restart number pdu)))
        ≡ takes (record { poll = poll; restart = restart; number = number; pdu = pdu }) }
{}

/// Where what waits on a terminal's radio down is so, in the epoch of a DU's context, and so are the frames on the DU's tunnel, a step by
/// which the DU takes the first of them leaves the radio and the other frames so, whatever the frame carries; and so does every step of a
/// DU that puts nothing there. So nothing is assumed of what a DU puts on that radio.
pub fn a_du_keeps_the_radio_down()
    ensures takes { (reading : Reading) (event : Event) (s t : RunState) (ue : UeId)
        (bearer : BearerId) (d : Model) (gnb : Gnb) (number : ℕ) (cause : RunCause)
        (input : Input Token Pdu) (outputs : List (Output (Message Token) Pdu)) (left : DuRecord)
        (part : DuModel) (f : Frame) (rest : List Frame) (next needed : ℕ)
        → IsInOrder (du_of s.units gnb number) ue → Stands event s cause
        → IsDuStep reading s t gnb number cause input outputs left
        → IsFrameStep reading s t ue bearer cause (map (written_put (sn_of s)) outputs)
        (with_du s.units gnb number left)
        → model_of (du_of s.units gnb number) ue bearer ≡ Some part
        → change_by plain_way ue bearer (du_of s.units gnb number) input ≡ takes f
        → (on_air s (down_key ue bearer)).epoch ≡ Some part.epoch
        → AreDown (on_air s (down_key ue bearer)) d part.bearer (f ∷ rest) next needed
        → AreDown (on_air t (down_key ue bearer)) d (taken_by part.bearer f) rest next needed }
    ensures quiet { (reading : Reading) (event : Event) (s t : RunState) (ue : UeId)
        (bearer : BearerId) (d : Model) (gnb : Gnb) (number : ℕ) (cause : RunCause)
        (input : Input Token Pdu) (outputs : List (Output (Message Token) Pdu)) (left : DuRecord)
        (b : DuBearer) (frames : List Frame) (next needed : ℕ)
        → IsInOrder (du_of s.units gnb number) ue → Stands event s cause
        → IsDuStep reading s t gnb number cause input outputs left
        → IsFrameStep reading s t ue bearer cause (map (written_put (sn_of s)) outputs)
        (with_du s.units gnb number left)
        → packets_by (on_air s (down_key ue bearer)).epoch
        (change_by plain_way ue bearer (du_of s.units gnb number) input)
        (model_of (du_of s.units gnb number) ue bearer) ≡ []
        → AreDown (on_air s (down_key ue bearer)) d b frames next needed
        → AreDown (on_air t (down_key ue bearer)) d b frames next needed }
{}

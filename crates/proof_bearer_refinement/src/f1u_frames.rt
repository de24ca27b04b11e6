//! Laws of the frames on a DU's tunnel in a run. Each function does nothing: its contract is the law.

ghost use Rattle.gnb_types.specs.declared.names.BearerId.{BearerId};
ghost use Rattle.gnb_types.specs.declared.names.Gnb.{Gnb};
ghost use Rattle.gnb_types.specs.declared.names.UeId.{UeId};
ghost use Rattle.proof_bearer_refinement.specs.f1u_frames.Frames.{du_end, frames_in, frames_sent};
ghost use Rattle.proof_bearer_refinement.specs.refinement_facts.Asked.{IsUpStep, RunCause};
ghost use Rattle.proof_bearer_refinement.specs.refinement_facts.Refinements.{RunItem, RunState};
ghost use Rattle.proof_cu_up_orders.specs.context_orders.Inputs.{orders_of};
ghost use Rattle.proof_cu_up_orders.specs.context_orders.Orders.{model_of};
ghost use Rattle.proof_cu_up_orders.specs.context_orders.Shown.{is_bearer};
ghost use Rattle.law_tunnels_are_owned.specs.owner_facts.Owned.{AreOwned};
ghost use Rattle.law_tunnels_are_owned.specs.run_tunnels.Own.{TunnelsHoldTheirOwn};
ghost use Rattle.proof_bearer_refinement.specs.run_unit_inputs.Happenings.{CuUpRecord};
ghost use Rattle.proof_run_steps.specs.tunnel_steps.Standing.{standing};
ghost use Rattle.run_defs.specs.Runs.{plain_way, Reading};
ghost use Rattle.run_defs.specs.Units.{du_of, cu_up_of};
ghost use Rattle.message_types.specs.declared.rrc.Token.{Token};
ghost use Rattle.std.specs.Ordering.{nat_cmp};
ghost use Rattle.std.specs.Prelude.{List, Some, true, ℕ, ◌++◌, ◌≡◌};
ghost use Rattle.tables.specs.Tables.{find};
ghost use Rattle.unit_defs.specs.Du.{DuTunnel};
ghost use Rattle.unit_defs.specs.Ways.{Input, Message, Output, Pdu};

/// Where a tunnel of a DU is a bearer's, the frames on it after a step of a CU-UP, whatever this takes, are those that stood there, and
/// then what the orders of the step send there, one after another: what a bearer whose downlink goes there sends (`proof_cu_up_orders::frame_rows`).
pub fn a_tunnel_has_what_is_sent()
    ensures { (reading : Reading) (ue : UeId) (bearer : BearerId) (s t : RunState) (gnb : Gnb)
        (number : ℕ) (cause : RunCause) (input : Input Token Pdu)
        (outputs : List (Output (Message Token) Pdu)) (v : CuUpRecord) (du : Gnb) (place teid : ℕ)
        (owner : DuTunnel) (items : List RunItem)
        → IsUpStep reading s t gnb number cause input outputs v → AreOwned s.units
        → TunnelsHoldTheirOwn t
        → find nat_cmp (du_of t.units du place).tunnels teid ≡ Some owner
        → is_bearer ue bearer owner.ue owner.bearer ≡ true
        → standing s (du_end du place teid) ≡ Some items
        → let r = cu_up_of s.units gnb number in
        let sent = frames_sent (du_end du place teid) ue bearer (orders_of plain_way r ue bearer input)
        (model_of r ue bearer) in
        (left : List RunItem) × (standing t (du_end du place teid) ≡ Some left)
        × (frames_in left ≡ frames_in items ++ sent) }
{}

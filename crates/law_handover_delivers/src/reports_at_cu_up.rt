//! A law of what is assumed of the orders that a CU-UP is asked for a bearer, where what stands on the bearer's tunnels reports only
//! what was received. The function does nothing: its contract is the law.

ghost use Rattle.gnb_types.specs.declared.names.BearerId.{BearerId};
ghost use Rattle.gnb_types.specs.declared.names.Gnb.{Gnb};
ghost use Rattle.gnb_types.specs.declared.names.SnBits.{SnBits};
ghost use Rattle.gnb_types.specs.declared.names.UeId.{UeId};
ghost use Rattle.law_handover_delivers.specs.assumptions.Assumed.{AllAssume, final_asks};
ghost use Rattle.proof_bearer_refinement.specs.refinement_facts.Asked.{IsUpStep, RunCause};
ghost use Rattle.proof_bearer_refinement.specs.refinement_facts.Refinements.{RunState};
ghost use Rattle.bearer_defs.specs.chain_defs.Models as down_models;
ghost use Rattle.proof_cu_up_orders.specs.bearer_orders.Happenings.{Beside, Happening};
ghost use Rattle.bearer_defs.specs.uplink_defs.Models as up_models;
ghost use Rattle.proof_bearer_refinement.specs.run_bearers.Bearers.{contexts_of, Numbering};
ghost use Rattle.law_tunnels_are_owned.specs.run_tunnels.Own.{TunnelsHoldTheirOwn};
ghost use Rattle.proof_bearer_refinement.specs.run_unit_inputs.Happenings.{CuUpRecord};
ghost use Rattle.law_handover_delivers.specs.report_links.Reports.{ReportsAreTrue};
ghost use Rattle.law_handover_delivers.specs.reports_at_cu_up.Still.{AllAssumeStill};
ghost use Rattle.message_types.specs.declared.rrc.Token.{Token};
ghost use Rattle.run_defs.specs.Runs.{Reading};
ghost use Rattle.std.specs.Prelude.{List, ℕ};
ghost use Rattle.unit_defs.specs.Ways.{Input, Message, Output, Pdu};

/// Of a step of a CU-UP in a run: where all that stands on the bearer's tunnels reports only what the terminal received, what is assumed of
/// the step's orders but of what an item reports is all that is assumed (`AllAssume`): what a delivery status confirms, or a status report,
/// was received.
pub fn true_reports_are_what_is_assumed()
    ensures { (reading : Reading) (n : Numbering) (ue : UeId) (bearer : BearerId) (sn : SnBits)
        (quota : ℕ) (s t : RunState) (gnb : Gnb) (number : ℕ) (cause : RunCause)
        (input : Input Token Pdu) (outputs : List (Output (Message Token) Pdu)) (v : CuUpRecord)
        (b : Beside) (d : down_models.Model) (u : up_models.Model)
        → IsUpStep reading s t gnb number cause input outputs v
        → TunnelsHoldTheirOwn s → ReportsAreTrue ue bearer d.terminal.deliv s
        → let hs : List (Happening Pdu) = final_asks n ue bearer s gnb number cause input b in
        AllAssumeStill n ue bearer s.units sn quota d u (contexts_of n ue bearer s.units) hs
        → AllAssume n ue bearer s.units sn quota d u (contexts_of n ue bearer s.units) hs }
{}

//! A law of a terminal's own steps in a run, beside what reports to a CU-UP what the terminal received. The function does nothing: its contract
//! is the law.

ghost use Rattle.bearer_defs.specs.chain_defs.Orders.{ModelStep, run};
ghost use Rattle.bearer_defs.specs.chain_defs.Models.{Model};
ghost use Rattle.gnb_types.specs.declared.names.BearerId.{BearerId};
ghost use Rattle.gnb_types.specs.declared.names.SnBits.{SnBits};
ghost use Rattle.gnb_types.specs.declared.names.UeId.{UeId};
ghost use Rattle.proof_bearer_refinement.specs.downlink_radio.Received.{IsKept};
ghost use Rattle.proof_bearer_refinement.specs.uplink_radio.Radio.{IsAtTerminal, IsUeStep, RunCause, RunState};
ghost use Rattle.proof_node_orders.specs.terminal_inputs.Inputs.{Models};
ghost use Rattle.law_handover_delivers.specs.report_links.Reports.{ReportsAreTrue};
ghost use Rattle.message_types.specs.declared.rrc.Token.{Token};
ghost use Rattle.run_defs.specs.Runs.{Reading};
ghost use Rattle.scenario_text.specs.declared.event.Event.{Event};
ghost use Rattle.std.specs.Prelude.{List, ◌≤◌, ℕ};
ghost use Rattle.unit_defs.specs.Ue.{UeNode};
ghost use Rattle.unit_defs.specs.Ways.{Input, Message, Output, Pdu};

/// Where a terminal shows a bearer's models, the model down came there by kept orders, and all that stands on the bearer's tunnels and on
/// its radio up reports only what the terminal received, it does so after each step of the terminal's own, whatever this is given: its
/// status reports say what it received. And no order of the model takes back what was received.
pub fn a_terminal_keeps_reports_true()
    ensures keeps { (reading : Reading) (event : Event) (s t : RunState) (ue : UeId)
        (bearer : BearerId) (b : Models) (refinement : IsAtTerminal reading ue bearer s b) (sn : SnBits)
        (quota : ℕ) → IsKept sn quota b.down → (v : UeNode) (cause : RunCause)
        (input : Input Token Pdu) (outputs : List (Output (Message Token) Pdu))
        → IsUeStep reading event s t ue refinement.terminal v cause input outputs
        → ReportsAreTrue ue bearer b.down.terminal.deliv s → ReportsAreTrue ue bearer b.down.terminal.deliv t }
    ensures grows { (d : Model) (orders : List ModelStep) → d.terminal.deliv ≤ (run d orders).terminal.deliv }
{}

//! Laws of what stands on the links of a run and reports to a CU-UP what a terminal received. Each function does nothing: its contract
//! is the law.

ghost use Rattle.bearer_defs.specs.chain_defs.Models.{Model};
ghost use Rattle.gnb_types.specs.declared.keys.TunnelEnd.{TunnelEnd};
ghost use Rattle.gnb_types.specs.declared.names.BearerId.{BearerId};
ghost use Rattle.gnb_types.specs.declared.names.NodeId.{NodeId};
ghost use Rattle.gnb_types.specs.declared.names.UeId.{UeId};
ghost use Rattle.gnb_types.specs.Orders.{tunnel_cmp};
ghost use Rattle.proof_cu_up_orders.specs.kept.Down.{ItemAssumes};
ghost use Rattle.proof_run_steps.specs.radio_steps.Radios.{on_air};
ghost use Rattle.proof_bearer_refinement.specs.uplink_radio.Radio.{RunCause, RunState, up_key};
ghost use Rattle.proof_run_steps.specs.steps.Causes.{count_of, first_of, node_of, Stands};
ghost use Rattle.law_handover_delivers.specs.report_links.Reports.{ReportsAreTrue, PutsAreTrue, RunItem, RunPut, LoadIsTrue};
ghost use Rattle.proof_run_steps.specs.tunnel_steps.Standing.{standing};
ghost use Rattle.message_types.specs.declared.rrc.Token.{Token};
ghost use Rattle.run_defs.specs.Lines.{RunLine};
ghost use Rattle.run_defs.specs.Runs.{plain_world, Reading, taken_of};
ghost use Rattle.run_defs.specs.States.{goes, new_state, ◌next◌};
ghost use Rattle.run_defs.specs.Steps.{carried_out, check_spans, put_out_all};
ghost use Rattle.run_defs.specs.Units.{Units};
ghost use Rattle.scenario_text.specs.declared.event.Event.{Event};
ghost use Rattle.std.specs.Prelude.{List, Option, Some, ◌∷◌, ◌≡◌, ◌≤◌, ℕ};
ghost use Rattle.tables.specs.Tables.{put};
ghost use Rattle.unit_defs.specs.CuUpRecords.{TunnelKind};
ghost use Rattle.unit_defs.specs.Ways.{Load, Message, Pdu};

/// Where all that stands on the tunnels and on the radio up of a bearer reports only what its terminal received, it does so still where more
/// was received, where tunnels and that radio stay as they are, and where the oldest item of a tunnel is lost; and so it is where a run
/// begins.
pub fn true_reports_stay_true()
    ensures first { (ue : UeId) (bearer : BearerId) (deliv : ℕ) → ReportsAreTrue ue bearer deliv new_state }
    ensures later { (ue : UeId) (bearer : BearerId) (deliv later : ℕ) (s : RunState)
        → deliv ≤ later → ReportsAreTrue ue bearer deliv s → ReportsAreTrue ue bearer later s }
    ensures alike { (ue : UeId) (bearer : BearerId) (deliv : ℕ) (s t : RunState)
        → t.tunnels ≡ s.tunnels → on_air t (up_key ue bearer) ≡ on_air s (up_key ue bearer)
        → ReportsAreTrue ue bearer deliv s → ReportsAreTrue ue bearer deliv t }
    ensures lost { (ue : UeId) (bearer : BearerId) (deliv : ℕ) (s t : RunState) (end : TunnelEnd)
        (item : RunItem) (rest : List RunItem) → standing s end ≡ Some (item ∷ rest)
        → t.tunnels ≡ put tunnel_cmp s.tunnels end rest
        → on_air t (up_key ue bearer) ≡ on_air s (up_key ue bearer)
        → ReportsAreTrue ue bearer deliv s → ReportsAreTrue ue bearer deliv t }
{}

/// So it is after each step of a run, whatever makes it, where what the step puts reports only what was received then; and after what
/// the core puts.
pub fn a_step_keeps_reports_true()
    ensures acts { (reading : Reading) (event : Event) (s t : RunState) (ue : UeId)
        (bearer : BearerId) (deliv later : ℕ) (cause : RunCause) (outputs : List RunPut)
        (units : Units (Message Token) Token) (lines : List (RunLine (Message Token)))
        → Stands event s cause
        → carried_out (plain_world reading) (node_of cause) (count_of cause)
        (first_of (plain_world reading) cause) outputs units s ≡ goes lines t
        → deliv ≤ later → ReportsAreTrue ue bearer deliv s → PutsAreTrue ue bearer later outputs
        → ReportsAreTrue ue bearer later t }
    ensures puts { (reading : Reading) (s t : RunState) (ue : UeId) (bearer : BearerId) (deliv : ℕ)
        (node : NodeId) (taken : Option ℕ) (outputs : List RunPut)
        (lines : List (RunLine (Message Token)))
        → (put_out_all (plain_world reading) node taken outputs s next check_spans) ≡ goes lines t
        → ReportsAreTrue ue bearer deliv s → PutsAreTrue ue bearer deliv outputs → ReportsAreTrue ue bearer deliv t }
{}

/// That an item which a CU-UP takes reports only what was received is what is assumed of it.
pub fn a_true_report_is_what_is_assumed()
    ensures { (d : Model) (x : ℕ) (kind : TunnelKind) (load : Load Pdu) → LoadIsTrue d.terminal.deliv load
        → ItemAssumes d x kind (taken_of load) }
{}

//! Laws of what stands on the links of a run and reports to a terminal what was carried up. Each function does nothing: its contract
//! is the law.

ghost use Rattle.gnb_types.specs.declared.keys.TunnelEnd.{TunnelEnd};
ghost use Rattle.gnb_types.specs.declared.names.BearerId.{BearerId};
ghost use Rattle.gnb_types.specs.declared.names.NodeId.{NodeId};
ghost use Rattle.gnb_types.specs.declared.names.UeId.{UeId};
ghost use Rattle.gnb_types.specs.Orders.{tunnel_cmp};
ghost use Rattle.law_handover_delivers.specs.down_reports.Reports.{ReportsDownAreTrue, PutsAreTrue, RunItem, RunPut};
ghost use Rattle.proof_bearer_refinement.specs.downlink_radio.Down.{down_key};
ghost use Rattle.proof_run_steps.specs.radio_steps.Radios.{on_air};
ghost use Rattle.proof_bearer_refinement.specs.uplink_radio.Radio.{RunCause, RunState};
ghost use Rattle.proof_run_steps.specs.steps.Causes.{count_of, first_of, node_of, Stands};
ghost use Rattle.proof_run_steps.specs.tunnel_steps.Standing.{standing};
ghost use Rattle.message_types.specs.declared.rrc.Token.{Token};
ghost use Rattle.run_defs.specs.Lines.{RunLine};
ghost use Rattle.run_defs.specs.Runs.{plain_world, Reading};
ghost use Rattle.run_defs.specs.States.{goes, new_state, ◌next◌};
ghost use Rattle.run_defs.specs.Steps.{carried_out, check_spans, put_out_all};
ghost use Rattle.run_defs.specs.Units.{Units};
ghost use Rattle.scenario_text.specs.declared.event.Event.{Event};
ghost use Rattle.std.specs.Prelude.{List, Option, Some, ◌∷◌, ◌≡◌, ◌≤◌, ℕ};
ghost use Rattle.tables.specs.Tables.{put};
ghost use Rattle.unit_defs.specs.Ways.{Message};
ghost use Rattle.bearer_defs.specs.uplink_defs.Orders.{after, ModelStep, run};
ghost use Rattle.bearer_defs.specs.uplink_defs.Models.{Model};

/// Where each status report that stands on the tunnels of a bearer, in a frame, or on its terminal's radio down reports only what was
/// carried up, it does so still where more was carried up, where tunnels and that radio stay as they are, and where the oldest item of a
/// tunnel is lost; and so it is where a run begins.
pub fn true_reports_stay_true()
    ensures first { (ue : UeId) (bearer : BearerId) (reached : ℕ)
        → ReportsDownAreTrue ue bearer reached new_state }
    ensures later { (ue : UeId) (bearer : BearerId) (reached later : ℕ) (s : RunState)
        → reached ≤ later → ReportsDownAreTrue ue bearer reached s → ReportsDownAreTrue ue bearer later s }
    ensures alike { (ue : UeId) (bearer : BearerId) (reached : ℕ) (s t : RunState)
        → t.tunnels ≡ s.tunnels → on_air t (down_key ue bearer) ≡ on_air s (down_key ue bearer)
        → ReportsDownAreTrue ue bearer reached s → ReportsDownAreTrue ue bearer reached t }
    ensures lost { (ue : UeId) (bearer : BearerId) (reached : ℕ) (s t : RunState) (end : TunnelEnd)
        (item : RunItem) (rest : List RunItem) → standing s end ≡ Some (item ∷ rest)
        → t.tunnels ≡ put tunnel_cmp s.tunnels end rest
        → on_air t (down_key ue bearer) ≡ on_air s (down_key ue bearer)
        → ReportsDownAreTrue ue bearer reached s → ReportsDownAreTrue ue bearer reached t }
{}

/// So it is after each step of a run, whatever makes it, where what the step puts reports only what was carried up then; and after what
/// the core puts.
pub fn a_step_keeps_reports_true()
    ensures acts { (reading : Reading) (event : Event) (s t : RunState) (ue : UeId)
        (bearer : BearerId) (reached later : ℕ) (cause : RunCause) (outputs : List RunPut)
        (units : Units (Message Token) Token) (lines : List (RunLine (Message Token)))
        → Stands event s cause
        → carried_out (plain_world reading) (node_of cause) (count_of cause)
        (first_of (plain_world reading) cause) outputs units s ≡ goes lines t
        → reached ≤ later → ReportsDownAreTrue ue bearer reached s → PutsAreTrue ue bearer later outputs
        → ReportsDownAreTrue ue bearer later t }
    ensures puts { (reading : Reading) (s t : RunState) (ue : UeId) (bearer : BearerId) (reached : ℕ)
        (node : NodeId) (taken : Option ℕ) (outputs : List RunPut)
        (lines : List (RunLine (Message Token)))
        → (put_out_all (plain_world reading) node taken outputs s next check_spans) ≡ goes lines t
        → ReportsDownAreTrue ue bearer reached s → PutsAreTrue ue bearer reached outputs
        → ReportsDownAreTrue ue bearer reached t }
{}

/// No order of a bearer's model up, whatever it is, takes back what was carried up.
pub fn what_was_carried_up_stays_so()
    ensures order { (u : Model) (o : ModelStep) → u.reached ≤ (after u o).reached }
    ensures orders { (u : Model) (os : List ModelStep) → u.reached ≤ (run u os).reached }
{}

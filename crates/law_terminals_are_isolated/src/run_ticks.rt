//! Laws of the ticks of a run: a tick of a unit is a step of each terminal. Each function does nothing: its contract is the law.

ghost use Rattle.gnb_types.specs.declared.names.Gnb.{Gnb};
ghost use Rattle.gnb_types.specs.declared.names.NodeId.{NodeId};
ghost use Rattle.gnb_types.specs.declared.names.UeId.{UeId};
ghost use Rattle.gnb_types.specs.Orders.{channel_cmp, ue_cmp};
ghost use Rattle.law_terminals_are_isolated.specs.all_steps.Steps.{AfterSteps};
ghost use Rattle.law_terminals_are_isolated.specs.cu_cp_projection.CuCps.{cu_cp_view};
ghost use Rattle.law_terminals_are_isolated.specs.own_events.Events.{RunState};
ghost use Rattle.law_requests_act_once.specs.run_channels.Reached.{kept_by};
ghost use Rattle.proof_run_steps.specs.control.Control.{control_of};
ghost use Rattle.law_terminals_are_isolated.specs.run_ticks.Ticks.{AreReported, IsUnit, TickEqual};
ghost use Rattle.law_terminals_are_isolated.specs.projection_arguments.Views.{StayEqualAt};
ghost use Rattle.law_terminals_are_isolated.specs.tick_projections.Ticks.{cu_cp_own_tick, ShowsOwn};
ghost use Rattle.run_defs.specs.Runs.{plain_way, plain_world, Reading};
ghost use Rattle.message_types.specs.declared.rrc.Token.{Token};
ghost use Rattle.run_defs.specs.States.{Lengths, sn_of, tick_for};
ghost use Rattle.run_defs.specs.Units.{cu_cp_of, Units};
ghost use Rattle.std.specs.Prelude.{◌≡◌};
ghost use Rattle.tables.specs.Tables.{IsSorted};
ghost use Rattle.unit_defs.specs.CuCp.{cu_cp_acts};
ghost use Rattle.unit_defs.specs.Ways.{Message, tick_input};

/// After any steps of a run the terminals of each CU-CP are in ascending order, and so are the channels of the open requests of each
/// unit.
pub fn units_keep_their_order()
    ensures terminals { (reading : Reading) (t : RunState) → AfterSteps reading t → (gnb : Gnb)
        → IsSorted ue_cmp (cu_cp_of t.units gnb).terminals }
    ensures requests { (reading : Reading) (t : RunState) → AfterSteps reading t → (node : NodeId)
        → IsSorted channel_cmp (kept_by (control_of t) node).caller.opened }
{}

/// So after any steps of a run, what a tick of a CU-CP does for a terminal, where it goes on, is what the terminal's own part does: its
/// due requests, and its command. (Of a DU and a CU-UP `tick_projections` says it of every state.)
pub fn a_tick_in_a_run_is_each_terminals()
    ensures { (reading : Reading) (t : RunState) (ue : UeId) (gnb : Gnb) → AfterSteps reading t
        → ShowsOwn (cu_cp_view ue) ue.0 (cu_cp_acts plain_way (cu_cp_of t.units gnb) tick_input)
        (cu_cp_own_tick plain_way ue (cu_cp_of t.units gnb)) }
{}

/// And in two states after steps of runs, where a terminal's projection at a unit is the same, and what is shared there: a tick of the unit
/// puts the same for the terminal, in the same order and with the same octets, where it goes on in both, and leaves its projection and
/// what is shared the same. Which of its requests are due follows from its projection.
pub fn ticks_do_the_same_for_a_terminal()
    ensures { (reading : Reading) (s t : RunState) (ue : UeId) (node : NodeId)
        → AfterSteps reading s
        → AfterSteps reading t → IsUnit node → StayEqualAt node ue s.units t.units
        → sn_of s ue ≡ sn_of t ue
        → TickEqual node ue ((plain_world reading).answer (sn_of s) s.units node tick_for)
        ((plain_world reading).answer (sn_of t) t.units node tick_for) }
{}

/// From every state: a tick of a unit puts no item on a tunnel or a radio, delivers nothing, and opens and closes no tunnel.
pub fn ticks_put_messages_alone()
    ensures { (reading : Reading) (lengths : Lengths) (units : Units (Message Token) Token)
        (node : NodeId) → IsUnit node
        → AreReported ((plain_world reading).answer lengths units node tick_for) }
{}

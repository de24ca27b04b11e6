//! Laws of two states of runs that share a terminal's projection: the tunnels that are its, ticks, and its setup without messages. Each
//! function does nothing: its contract is the law.

ghost use Rattle.gnb_types.specs.declared.names.NodeId.TheVariants.{CuUp, Du};
ghost use Rattle.gnb_types.specs.declared.names.NodeId.{NodeId};
ghost use Rattle.gnb_types.specs.declared.names.UeId.{UeId};
ghost use Rattle.gnb_types.specs.declared.plans.Plan.{Plan};
ghost use Rattle.law_terminals_are_isolated.specs.equal_projections.States.{IsTicked, shared_but_room, Ticked};
ghost use Rattle.law_terminals_are_isolated.specs.step_consistency.EqualStates.{Agree};
ghost use Rattle.law_terminals_are_isolated.specs.all_steps.Steps.{AfterSteps};
ghost use Rattle.law_terminals_are_isolated.specs.own_events.Events.{RunState};
ghost use Rattle.law_tunnels_are_owned.specs.owner_facts.Owned.{AreOwned};
ghost use Rattle.message_types.specs.declared.rrc.Token.{Token};
ghost use Rattle.run_defs.specs.Conditions.{all_set_up, units_placed};
ghost use Rattle.run_defs.specs.Runs.{Reading};
ghost use Rattle.run_defs.specs.States.{sn_of};
ghost use Rattle.run_defs.specs.Units.{Units};
ghost use Rattle.std.specs.Prelude.{◌≡◌};
ghost use Rattle.unit_defs.specs.Ways.{Message};

/// In two states after steps of runs that have a terminal's projection in common at all units, and what is shared at one of them but for
/// its room: a tick of this unit puts the same for the terminal, control messages alone, and the projection is the same at all units then.
pub fn a_tick_keeps_a_projection_the_same()
    ensures { (reading : Reading) (ue : UeId) (node : NodeId) (s x t y : RunState)
        → AfterSteps reading s → AfterSteps reading t → Agree ue s.units t.units
        → sn_of s ue ≡ sn_of t ue
        → (a : IsTicked reading node s x) → (b : IsTicked reading node t y)
        → shared_but_room s.units node ≡ shared_but_room t.units node
        → Ticked ue a.outputs b.outputs a.units b.units }
{}

/// Of any two sets of units that have a terminal's projection in common: where the same is shared at the CU-UP and the DU of its plan but
/// for room, so that the same TEIDs come next, it is set up without messages to the same projection. TEIDs have owners then.
pub fn a_terminal_is_set_up_to_one_projection()
    ensures { (plan : Plan) (ue : UeId) (u v : Units (Message Token) Token) → plan.ue ≡ ue
        → Agree ue u v
        → shared_but_room u (CuUp plan.gnb plan.up) ≡ shared_but_room v (CuUp plan.gnb plan.up)
        → shared_but_room u (Du plan.gnb plan.du) ≡ shared_but_room v (Du plan.gnb plan.du)
        → AreOwned (all_set_up (units_placed plan u)) → AreOwned (all_set_up (units_placed plan v))
        → Agree ue (all_set_up (units_placed plan u)) (all_set_up (units_placed plan v)) }
{}

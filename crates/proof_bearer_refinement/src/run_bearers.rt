//! Laws of all units in every run: what happens is one list, in its order, and for each bearer a list of orders of its contexts. Each
//! function does nothing: its contract is the law.

ghost use Rattle.std.specs.Prelude.{◌≡◌, List, Some};
ghost use Rattle.gnb_types.specs.declared.names.BearerId.{BearerId};
ghost use Rattle.gnb_types.specs.declared.names.UeId.{UeId};
ghost use Rattle.message_types.specs.declared.rrc.Token.{Token};
ghost use Rattle.scenario_text.specs.declared.event.Event.{Event};
ghost use Rattle.unit_defs.specs.Ways.{Message, Load, Pdu};
ghost use Rattle.run_defs.specs.Runs.{plain_world, Reading};
ghost use Rattle.run_defs.specs.States.{State};
ghost use Rattle.run_defs.specs.Written.{Written};
ghost use Rattle.proof_run_steps.specs.steps.Reached.{reached};
ghost use Rattle.proof_bearer_refinement.specs.run_bearers.Things.{Thing, PlainUnits, after_things};
ghost use Rattle.proof_bearer_refinement.specs.run_bearers.Bearers.{Numbering, contexts_of, changes_over, after_changes, AllInOrder};

/// In every run, from any state, all units are what their tables make of what happens, one thing after another: a unit is given an
/// input, a terminal comes, or is set up without messages.
pub fn a_run_is_a_list_of_things()
    ensures { (reading : Reading) (events : List Event)
        (s t : State (Message Token) Token (Written (Load Pdu)) (Written Pdu))
        → reached (plain_world reading) events s ≡ Some t
        → (things : List Thing) × (t.units ≡ after_things s.units things) }
{}

/// What happens is, for each bearer, one list of orders of its contexts at all CU-UPs, each by its node and instance, in their order;
/// and what the CU-UPs have of the bearer then is what these make of it. A terminal that is set up without messages has its contexts
/// as they are then.
pub fn things_are_orders_of_contexts()
    ensures { (n : Numbering) (ue : UeId) (bearer : BearerId) (u : PlainUnits) (things : List Thing)
        → AllInOrder u → AllInOrder (after_things u things)
        × (contexts_of n ue bearer (after_things u things)
        ≡ after_changes ue bearer (contexts_of n ue bearer u) (changes_over n ue bearer u things)) }
{}

/// Contexts can be numbered so, each place of one with a number of its own.
pub fn places_can_be_numbered()
    ensures { Numbering }
{}

//! A law of what couples terminals in a run. Each function does nothing: its contract is the law.

ghost use Rattle.gnb_types.specs.declared.names.NodeId.{NodeId};
ghost use Rattle.gnb_types.specs.declared.names.UeId.{UeId};
ghost use Rattle.law_terminals_are_isolated.specs.run_projections.Units.{given_ue};
ghost use Rattle.law_terminals_are_isolated.specs.projection_arguments.Views.{AnswerEqual, AreEqualAt};
ghost use Rattle.message_types.specs.declared.rrc.Token.{Token};
ghost use Rattle.run_defs.specs.Runs.{plain_world, PlainGiven, Reading};
ghost use Rattle.run_defs.specs.States.{Lengths};
ghost use Rattle.run_defs.specs.Units.{Units};
ghost use Rattle.std.specs.Prelude.{Some, ◌≡◌};
ghost use Rattle.unit_defs.specs.Ways.{Message};

/// Of any two states of runs: where both have a terminal's projection at a node in common, and what is shared there, the node puts out
/// the same with the same that is for the terminal, and they have both in common then. So nothing else couples terminals but
/// the names of nodes, which units are set up, the TEID that comes next, and for which setups there is room at a CU-UP.
pub fn terminals_are_coupled_by_what_is_shared()
    ensures { (reading : Reading) (lengths : Lengths) (u v : Units (Message Token) Token)
        (node : NodeId) (given : PlainGiven) (ue : UeId) → AreEqualAt node ue u v
        → given_ue reading u node given ≡ Some ue
        → AnswerEqual node ue ((plain_world reading).answer lengths u node given)
        ((plain_world reading).answer lengths v node given) }
{}

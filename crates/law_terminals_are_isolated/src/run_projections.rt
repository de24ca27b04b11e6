//! Laws of what the units of a run do for one terminal. Each function does nothing: its contract is the law.

ghost use Rattle.gnb_types.specs.declared.names.NodeId.{NodeId};
ghost use Rattle.gnb_types.specs.declared.names.UeId.{UeId};
ghost use Rattle.law_terminals_are_isolated.specs.run_projections.Units.{given_ue, AreApart, AreThemselves, IsUnitsStepOf};
ghost use Rattle.message_types.specs.declared.rrc.Token.{Token};
ghost use Rattle.run_defs.specs.Runs.{plain_world, PlainGiven, Reading};
ghost use Rattle.run_defs.specs.States.{Lengths};
ghost use Rattle.run_defs.specs.Units.{Units};
ghost use Rattle.std.specs.Prelude.{◌≡◌, Some};
ghost use Rattle.unit_defs.specs.Ways.{Message};

/// Whichever unit of a run is given what is for a terminal: all that it puts out is the terminal's, and what all units keep of
/// the other terminals stays, where no TEID of a DU is two terminals', and each terminal is kept as itself.
pub fn a_step_of_a_unit_is_one_terminals()
    ensures { (reading : Reading) (lengths : Lengths) (units : Units (Message Token) Token) (node : NodeId)
        (given : PlainGiven) (ue : UeId) → AreApart units → AreThemselves units
        → given_ue reading units node given ≡ Some ue
        → IsUnitsStepOf ue units ((plain_world reading).answer lengths units node given) }
{}

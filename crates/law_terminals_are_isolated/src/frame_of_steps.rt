//! A law of what a run keeps of other terminals than that of a step. Each function does nothing: its contract is the law.

ghost use Rattle.gnb_types.specs.declared.names.UeId.{UeId};
ghost use Rattle.law_terminals_are_isolated.specs.frame_of_steps.Others.{IsOutputFor, IsStepFor, OthersStay};
ghost use Rattle.proof_run_steps.specs.steps.Causes.{Cause, count_of, first_of, node_of};
ghost use Rattle.run_defs.specs.Lines.{RunLine};
ghost use Rattle.run_defs.specs.States.{goes, State, World};
ghost use Rattle.run_defs.specs.Steps.{carried_out};
ghost use Rattle.run_defs.specs.Units.{Units};
ghost use Rattle.std.specs.List.{AllByRecursion};
ghost use Rattle.std.specs.Prelude.{List, ◌≡◌};
ghost use Rattle.unit_defs.specs.Ways.{Put};

/// Whatever units and the core answer, and from every state: where a step of a unit is a terminal's, and all that it puts out is
/// the terminal's (`step_projections` says when), and it closes no tunnel on which another one's items stand, all that is kept beside
/// the units of the other terminals is afterwards as before: control messages, items on tunnels, radios, books, connections and
/// plans.
pub fn a_step_leaves_the_others<M, C, L, P>()
    ensures { (world : World M C L P) (ue : UeId) (cause : Cause M L P) (outputs : List (Put M L P)) (units : Units M C)
        (s t : State M C L P) (lines : List (RunLine M)) → IsStepFor ue s cause → AllByRecursion (IsOutputFor ue s (node_of cause)) outputs
        → carried_out world (node_of cause) (count_of cause) (first_of world cause) outputs units s ≡ goes lines t
        → OthersStay ue s t }
{}

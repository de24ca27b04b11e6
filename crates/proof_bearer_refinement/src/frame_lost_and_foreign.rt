//! Laws of steps of a run that leave a bearer's contexts and tunnels, and aren't a unit's with items. Each function does nothing: its
//! contract is the law.

ghost use Rattle.gnb_types.specs.declared.names.BearerId.{BearerId};
ghost use Rattle.gnb_types.specs.declared.names.NodeId.TheVariants.{Core};
ghost use Rattle.gnb_types.specs.declared.names.NodeId.{NodeId};
ghost use Rattle.gnb_types.specs.declared.names.UeId.{UeId};
ghost use Rattle.proof_bearer_refinement.specs.frame_lost_and_foreign.Left.{IsAlike, LosesItem};
ghost use Rattle.proof_bearer_refinement.specs.refinement_facts.Refinements.{RunState};
ghost use Rattle.proof_bearer_refinement.specs.run_bearers.Bearers.{Numbering};
ghost use Rattle.proof_bearer_refinement.specs.runs.Steps.{LeavesBearer};
ghost use Rattle.message_types.specs.declared.rrc.Token.{Token};
ghost use Rattle.run_defs.specs.Lines.{RunLine};
ghost use Rattle.run_defs.specs.Runs.{plain_world, Reading};
ghost use Rattle.run_defs.specs.States.{core_stepped, goes, octets_from, sn_of, ◌next◌};
ghost use Rattle.run_defs.specs.Steps.{check_spans, put_out_all};
ghost use Rattle.run_defs.specs.Written.{Written};
ghost use Rattle.std.specs.Prelude.{List, None, ◌≡◌, ℕ};
ghost use Rattle.unit_defs.specs.Core.{CoreRecord};
ghost use Rattle.unit_defs.specs.Ways.{Load, Message, Pdu, Put};

/// Where a control message lands at a unit that takes none, or is lost, where a run begins, a unit holds an item, or lines are printed, and
/// where an item is lost on a tunnel that may lose one, all of a bearer's contexts stay, whose its tunnels are, and what stands there.
pub fn steps_of_no_unit_leave_the_bearer()
    ensures alike { (n : Numbering) (ue : UeId) (bearer : BearerId) (s t : RunState)
        → IsAlike s t → LeavesBearer n ue bearer s t }
    ensures lost { (reading : Reading) (n : Numbering) (ue : UeId) (bearer : BearerId)
        (s t : RunState) → LosesItem reading s t → LeavesBearer n ue bearer s t }
{}

/// And so where the core is given octets from outside.
pub fn octets_to_the_core_leave_the_bearer()
    ensures { (reading : Reading) (n : Numbering) (ue : UeId) (bearer : BearerId) (s t : RunState)
        (from : NodeId) (octets : List ℕ)
        (outputs : List (Put (Message Token) (Written (Load Pdu)) (Written Pdu)))
        (core : CoreRecord (Message Token) Token) (lines : List (RunLine (Message Token)))
        → (plain_world reading).core_answer (sn_of s) s.core (octets_from from octets)
        ≡ core_stepped outputs core
        → (put_out_all (plain_world reading) Core None outputs (record s { core = core })
        next check_spans) ≡ goes lines t
        → LeavesBearer n ue bearer s t }
{}

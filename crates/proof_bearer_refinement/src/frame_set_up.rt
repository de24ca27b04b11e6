//! A law of the terminals that are set up without messages in a run. The function does nothing: its contract is the law.

ghost use Rattle.gnb_types.specs.declared.names.BearerId.{BearerId};
ghost use Rattle.gnb_types.specs.declared.names.UeId.{UeId};
ghost use Rattle.gnb_types.specs.declared.plans.Plan.{Plan};
ghost use Rattle.proof_bearer_refinement.specs.refinement_facts.Refinements.{RunState};
ghost use Rattle.proof_bearer_refinement.specs.run_bearers.Bearers.{Numbering};
ghost use Rattle.proof_bearer_refinement.specs.runs.Steps.{LeavesBearer};
ghost use Rattle.proof_bearer_refinement.specs.runs.Fair.{IsFair};
ghost use Rattle.run_defs.specs.Conditions.{is_held_by_units, statically};
ghost use Rattle.run_defs.specs.Runs.{Reading};
ghost use Rattle.run_defs.specs.Units.{du_of, cu_up_of};
ghost use Rattle.std.specs.Prelude.{◌&&◌, ◌≡◌, ◌≢◌, false, true};
ghost use Rattle.unit_defs.specs.Static.{du_has_teids, cu_up_has_teids};

/// Where a terminal is set up without messages, of two fair states, all contexts of a bearer of another terminal stay, whose its tunnels
/// are, and what stands on them.
pub fn a_set_up_leaves_other_bearers()
    ensures { (reading : Reading) (n : Numbering) (ue : UeId) (bearer : BearerId) (s : RunState)
        (plan : Plan) → IsFair s → IsFair (statically plan s)
        → is_held_by_units plan s.units ≡ false
        → cu_up_has_teids (cu_up_of s.units plan.gnb plan.up) plan
        && du_has_teids (du_of s.units plan.gnb plan.du) plan ≡ true
        → ue ≢ plan.ue → LeavesBearer n ue bearer s (statically plan s) }
{}

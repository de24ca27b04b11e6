//! A law of draining, for every script of a bearer with duplication. The function does nothing: its contract is the law.

ghost use Rattle.std.specs.Prelude.{◌≡◌, ℕ, ◌≤◌, true, List, [], ◌∷◌, length, None};
ghost use Rattle.gnb_types.specs.declared.names.SnBits.{SnBits};
ghost use Rattle.dup_defs.specs.declared.types.event.DupEvent.{DupEvent};
ghost use Rattle.dup_defs.specs.declared.types.event.DupEvent.TheVariants.{Ask};
ghost use Rattle.dup_defs.specs.declared.types.leg.Leg.{Leg};
ghost use Rattle.dup_defs.specs.declared.types.line.DupLine.{DupLine};
ghost use Rattle.dup_defs.specs.declared.types.line.DupLine.TheVariants.{Quiet};
ghost use Rattle.dup_defs.specs.Senders.{serves};
ghost use Rattle.dup_defs.specs.dup_run_defs.Run.{DupRun};
ghost use Rattle.dup_defs.specs.dup_run_defs.Steps.{passes, drains, steps, script_of};
ghost use Rattle.law_dup.specs.Scripts.{accepted};

/// After a drain while a leg of the mode is up nothing is under way: the question is answered with the number of all packets that were
/// accepted, and all of them were delivered.
pub fn a_drain_delivers_all()
    ensures { (sn : SnBits) (quota : ℕ) (script : List DupEvent) → 1 ≤ quota → (script_of sn quota script).ended ≡ None
        → (printed : List DupLine) (after : DupRun) → drains sn quota (script_of sn quota script).now ≡ passes printed after
        → (leg : Leg) → serves after.entity leg ≡ true
        → steps sn quota Ask after ≡ passes (Quiet (length (accepted (script_of sn quota script))) ∷ []) after }
{}

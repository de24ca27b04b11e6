//! Laws of runs in which no unit is told anything. Each function does nothing: its contract is the law.

ghost use Rattle.std.specs.Prelude.{◌≡◌, List, [], ◌∷◌};
ghost use Rattle.std.specs.List.{AllByRecursion};
ghost use Rattle.gnb_types.specs.declared.names.BearerId.{BearerId};
ghost use Rattle.gnb_types.specs.declared.names.Dir.TheVariants.{Dl};
ghost use Rattle.gnb_types.specs.declared.names.UeId.{UeId};
ghost use Rattle.law_downlink_scripts.specs.downlink_only_runs.Scripts.{DeliversInOrder, IsDownlinkOnly};
ghost use Rattle.law_downlink_scripts.specs.downlink_only_runs.Worked.{downlink, worked};
ghost use Rattle.run_defs.specs.Runs.{Reading, Run};
ghost use Rattle.run_defs.specs.Said.{Counts, Delivered};
ghost use Rattle.run_defs.specs.States.{entity};
ghost use Rattle.scenario_text.specs.declared.event.Event.{Event};

/// In every run of terminals that are set up without messages, of packets that are offered down, of items that are got, carried and
/// confirmed, and of questions, for every terminal, bearer, unit, number length and quota: what a bearer delivers down is the
/// beginning of what was offered there, in its order and each packet once, and its COUNTs are 0, 1, 2 and so on.
pub fn what_is_offered_is_delivered_in_order()
    ensures { (reading : Reading) (events : List Event) → AllByRecursion IsDownlinkOnly events
        → (ue : UeId) (bearer : BearerId)
        → DeliversInOrder (entity ue bearer Dl) (Run reading events).events }
{}

/// Such a run delivers: with a quota of one packet two are delivered, the second one once the first is confirmed.
pub fn a_worked_run_delivers()
    ensures script { AllByRecursion IsDownlinkOnly worked }
    ensures packets { (reading : Reading) → Delivered downlink (Run reading worked).events ≡ (7 ∷ []) ∷ (8 ∷ []) ∷ [] }
    ensures counts { (reading : Reading) → Counts downlink (Run reading worked).events ≡ 0 ∷ 1 ∷ [] }
{}

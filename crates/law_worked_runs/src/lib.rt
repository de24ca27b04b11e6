//! Worked scripts and acts as theorems: the runs that the definitions give have the lines that were worked out, and worked acts are the
//! freezes and contexts that they were meant to be.
#![tactic(auto)]

ghost use Rattle.law_worked_runs.specs.All.{all};
ghost use Rattle.law_worked_runs.specs.OldUplinkCopyAndSpan.{worked as old_uplink_copy_and_span};
ghost use Rattle.law_worked_runs.specs.Octets.{octet_outcome, octet_expected};
ghost use Rattle.law_worked_runs.specs.Short.{outcome, expected};
ghost use Rattle.law_worked_runs.specs.WorkedHops.{key, second_made, first_freeze, repeated_freeze, third_made, first_leg, second_leg, third_leg};
ghost use Rattle.run_defs.specs.Hops.{IsFreeze, IsNewest};
ghost use Rattle.std.specs.Prelude.{map, ◌≡◌, List, [], ◌∷◌};

/// The run of each worked script shows the lines that were worked out for it, and stops as it was worked out.
pub fn worked_runs()
    ensures { map outcome all ≡ map expected all }
{}

/// The same of a long one: a copy on an old uplink tunnel, and 2,048 packets after it, so that the run stops.
pub fn old_copy_stops_a_run()
    ensures { outcome old_uplink_copy_and_span ≡ expected old_uplink_copy_and_span }
{}

/// The same over octets: units that do what the tables say, after decoding, with the COUNTs that they find.
pub fn worked_octet_runs()
    ensures { map octet_outcome all ≡ map octet_expected all }
{}

/// The first answer to a request to freeze is the freeze. The same request given again is answered again, and is no further freeze.
pub fn a_repeated_request_is_no_freeze()
    ensures first { IsFreeze key (second_made ∷ []) first_leg second_leg 3 first_freeze }
    ensures again { IsFreeze key (second_made ∷ first_freeze ∷ []) first_leg second_leg 3 repeated_freeze → ⊥ }
{}

/// Where a bearer comes back to its first CU-UP, the newest context there is the one that was made then, and not the first one.
pub fn a_bearer_that_comes_back_has_a_new_context()
    ensures before { IsNewest key (second_made ∷ first_freeze ∷ []) first_leg }
    ensures newest { IsNewest key (second_made ∷ first_freeze ∷ third_made ∷ []) third_leg }
    ensures older { IsNewest key (second_made ∷ first_freeze ∷ third_made ∷ []) first_leg → ⊥ }
{}

//! Laws of units that do what the tables say. Each function does nothing: its contract is the law.

ghost use Rattle.gnb_types.specs.declared.inputs.Input.{Input};
ghost use Rattle.gnb_types.specs.declared.names.NodeId.{NodeId};
ghost use Rattle.gnb_types.specs.declared.plans.Plan.{Plan};
ghost use Rattle.law_octets_say_the_same.specs.units_follow.Ranges.{FollowsThere, IsInRange, StaysInRange, within};
ghost use Rattle.run_defs.specs.UnitRuns.{Meaning, Records, tables, UnitRun};
ghost use Rattle.scenario_text.specs.declared.event.Event.{Event};
ghost use Rattle.std.specs.List.{AllByRecursion};
ghost use Rattle.std.specs.Prelude.{List, ℕ, ◌≡◌};
ghost use Rattle.unit_defs.specs.Core.{CoreRecord};
ghost use Rattle.unit_defs.specs.octet_defs.Codec.{Codec};

/// Units that answer each input as the tables do after decoding have the run of the tables after decoding, for every script:
/// the same steps with the same lines, and the same end.
pub fn units_that_follow_run_alike()
    ensures { (codec : Codec) (answer : Meaning)
        → ((records : Records) (node : NodeId) (input : Input) → answer records node input ≡ tables codec records node input)
        → (events : List Event) → UnitRun codec answer events ≡ UnitRun codec (tables codec) events }
{}

/// What holds wherever a run comes: of the records of units and of the core, of what a node is given, of the packets that are
/// offered at the core, and of the plans of terminals.
pub trait Ranges {
    ghost records: { Records → Type 0 };

    ghost core: { CoreRecord (List ℕ) (List ℕ) → Type 0 };

    ghost input: { NodeId → Input → Type 0 };

    ghost packet: { List ℕ → Type 0 };

    ghost plan: { Plan → Type 0 };
}

/// Ranges without bounds.
pub struct Everywhere;

impl Ranges for Everywhere {
    ghost records = { λ _. Unit {0} };

    ghost core = { λ _. Unit {0} };

    ghost input = { λ _ _. Unit {0} };

    ghost packet = { λ _. Unit {0} };

    ghost plan = { λ _. Unit {0} };
}

/// The same of units that answer so where a run comes to alone. Any ranges, of records and of the inputs that a node is
/// handed, hold at first and go on to hold; and there units answer as the tables do after decoding. Then for every script
/// in range, its plans too, the run is the run of the tables after decoding.
pub fn units_that_follow_in_range_run_alike<R: Ranges>()
    ensures { (codec : Codec) (answer : Meaning)
        → StaysInRange codec answer (within R.records R.core R.input R.packet R.plan)
        → FollowsThere codec answer (within R.records R.core R.input R.packet R.plan)
        → (events : List Event) → AllByRecursion (IsInRange (within R.records R.core R.input R.packet R.plan)) events
        → UnitRun codec answer events ≡ UnitRun codec (tables codec) events }
{}

//! Laws of runs over octets, beside the runs of what is said. Each function does nothing: its contract is the law.

ghost use Rattle.law_octets_say_the_same.specs.octet_runs.Again.{PlainState};
ghost use Rattle.law_octets_say_the_same.specs.octet_runs.Faithful.{IsFaithful};
ghost use Rattle.law_octets_say_the_same.specs.octet_runs.Printed.{printed};
ghost use Rattle.run_defs.specs.Runs.{Reading, Run};
ghost use Rattle.run_defs.specs.UnitRuns.{tables, UnitRun};
ghost use Rattle.scenario_text.specs.declared.event.Event.{Event};
ghost use Rattle.std.specs.List.{AllByRecursion};
ghost use Rattle.std.specs.Prelude.{List, ◌≡◌};
ghost use Rattle.unit_defs.specs.octet_defs.Codec.{Codec};
ghost use Rattle.unit_defs.specs.octet_defs.Spelling.{spelled};

/// Scripts, by their events, and what holds of each state that a run of what is said comes to on them.
pub trait Scripts {
    ghost one: { Event → Type 0 };

    ghost holds: { PlainState → Type 0 };
}

/// Where units read in octets what is said, the run over octets prints what the run of what is said prints: the same events with
/// the same steps of the same units, each line the same, and the same end. For every codec, every script of packets, and
/// whatever holds at first and goes on to hold.
pub fn a_run_over_octets_prints_the_same<S: Scripts>()
    ensures { (codec : Codec) (reading : Reading) → IsFaithful codec reading S.one S.holds → (events : List Event)
        → AllByRecursion S.one events
        → printed (λ octets. octets) (UnitRun codec (tables codec) events) ≡ printed (spelled codec) (Run reading events) }
{}

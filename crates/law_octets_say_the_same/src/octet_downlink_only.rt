//! Laws of runs of packets down, over octets. Each function does nothing: its contract is the law.

ghost use Rattle.unit_defs.specs.codec_defs.Reading.{ReadsItems, ReadsPdus};
ghost use Rattle.law_octets_say_the_same.specs.octet_runs.Printed.{printed};
ghost use Rattle.law_octets_say_the_same.specs.octet_facts.Ranges.{IsConfirmedDown, IsDown};
ghost use Rattle.law_octets_say_the_same.specs.octet_downlink_only.Near.{StatusesAreNear};
ghost use Rattle.law_octets_say_the_same.specs.octet_downlink_only.Worked.{two_down};
ghost use Rattle.law_downlink_scripts.specs.downlink_only_runs.Worked.{downlink, worked};
ghost use Rattle.run_defs.specs.Runs.{Reading, Run};
ghost use Rattle.run_defs.specs.Said.{Delivered};
ghost use Rattle.run_defs.specs.UnitRuns.{tables, UnitRun};
ghost use Rattle.scenario_text.specs.declared.event.Event.{Event};
ghost use Rattle.std.specs.List.{AllByRecursion};
ghost use Rattle.std.specs.Prelude.{List, [], ◌∷◌, ◌≡◌};
ghost use Rattle.unit_defs.specs.octet_defs.Codec.{Codec};
ghost use Rattle.unit_defs.specs.octet_defs.Spelling.{spelled};

/// Of terminals that are set up without messages, of packets that are offered down and aren't empty, of items that are got and
/// carried, and of questions: the run of the tables after decoding prints what the run of what is said prints, for every lawful
/// codec.
pub fn packets_down_print_the_same()
    ensures { (codec : Codec) → ReadsItems codec → ReadsPdus codec → (reading : Reading)
        → (events : List Event) → AllByRecursion IsDown events
        → printed (λ octets. octets) (UnitRun codec (tables codec) events) ≡ printed (spelled codec) (Run reading events) }
{}

/// The same where items are confirmed too, as far as a CU-UP finds the COUNTs of delivery statuses from their numbers: where, of the
/// oldest item of a tunnel, the COUNT is below the CU-UP's next one, by a space of numbers at most.
pub fn confirmed_packets_print_the_same()
    ensures { (codec : Codec) → ReadsItems codec → ReadsPdus codec → (reading : Reading) → StatusesAreNear reading
        → (events : List Event) → AllByRecursion IsConfirmedDown events
        → printed (λ octets. octets) (UnitRun codec (tables codec) events) ≡ printed (spelled codec) (Run reading events) }
{}

/// Two packets are delivered by a script of the first law; and the worked script of `law_downlink_scripts::downlink_only_runs`, in which a
/// confirmation makes room for the second packet, is one of the second.
pub fn worked_scripts_are_met()
    ensures script { AllByRecursion IsDown two_down }
    ensures packets { (reading : Reading) → Delivered downlink (Run reading two_down).events ≡ (7 ∷ []) ∷ (8 ∷ []) ∷ [] }
    ensures confirmed { AllByRecursion IsConfirmedDown worked }
{}

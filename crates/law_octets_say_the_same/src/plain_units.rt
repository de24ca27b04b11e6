//! Laws of plain units, as the runner has them. Each function does nothing: its contract is the law.

ghost use Rattle.run_defs.specs.plain_defs.Plain.{ArePlanned, IsPlain, KeepRange};
ghost use Rattle.run_defs.specs.UnitRuns.{Meaning, Records, tables, UnitRun};
ghost use Rattle.unit_defs.specs.octet_defs.Codec.{Codec};
ghost use Rattle.scenario_text.specs.Texts.{InRange};
ghost use Rattle.scenario_text.specs.declared.event.Event.{Event};
ghost use Rattle.std.specs.List.{AllByRecursion};
ghost use Rattle.std.specs.Prelude.{List, ◌≡◌};

/// Units as a run has them: what they answer, and which records of theirs are in range.
pub trait Units {
    ghost answer: { Codec → Meaning };

    ghost in_range: { Records → Type 0 };
}

/// Units that do what the tables say after decoding. In range are those whose terminals have plans in range.
pub struct Tables;

impl Units for Tables {
    ghost answer = { tables };

    ghost in_range = { ArePlanned };
}

/// Where units are plain, their run is the run of the tables after decoding, for every script whose words are in the ranges of
/// the grammar, as each script that is read is: the same steps with the same lines, and the same end. What is asked of plain units:
/// that the records in range go on to be in range, and that there they answer each input as the tables do after decoding, but for
/// an empty packet, which is never offered.
pub fn plain_units_run_as_the_tables_do<U: Units>()
    ensures { (codec : Codec) → KeepRange (U.answer codec) U.in_range
        → IsPlain codec (U.answer codec) U.in_range
        → (events : List Event) → AllByRecursion InRange events
        → UnitRun codec (U.answer codec) events ≡ UnitRun codec (tables codec) events }
{}

/// The tables are such units, whatever the codec, and in every run of theirs terminals keep plans in range.
pub fn the_tables_are_plain_units()
    ensures range { (codec : Codec)
        → KeepRange (⟦<Tables as Units>⟧.answer codec) ⟦<Tables as Units>⟧.in_range }
    ensures plain { (codec : Codec)
        → IsPlain codec (⟦<Tables as Units>⟧.answer codec) ⟦<Tables as Units>⟧.in_range }
{}

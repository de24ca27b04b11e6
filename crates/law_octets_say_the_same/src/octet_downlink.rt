//! Laws of what plain units deliver, over octets. Each function does nothing: its contract is the law.

ghost use Rattle.unit_defs.specs.codec_defs.Reading.{ReadsItems, ReadsPdus};
ghost use Rattle.gnb_types.specs.declared.names.BearerId.{BearerId};
ghost use Rattle.gnb_types.specs.declared.names.Dir.TheVariants.{Dl};
ghost use Rattle.gnb_types.specs.declared.names.UeId.{UeId};
ghost use Rattle.law_octets_say_the_same.specs.octet_downlink.Promise.{KeepsPromise};
ghost use Rattle.law_octets_say_the_same.specs.octet_downlink_only.Near.{StatusesAreNear};
ghost use Rattle.law_octets_say_the_same.specs.octet_facts.Ranges.{IsConfirmedDown, IsDown};
ghost use Rattle.law_octets_say_the_same.specs.octet_runs.Printed.{printed};
ghost use Rattle.law_downlink_scripts.specs.downlink_only_runs.Scripts.{DeliversInOrder};
ghost use Rattle.message_types.specs.declared.rrc.Token.{Token};
ghost use Rattle.run_defs.specs.plain_defs.Plain.{IsPlain, KeepRange};
ghost use Rattle.run_defs.specs.Local.{CountMeans};
ghost use Rattle.run_defs.specs.Runs.{Reading, Transcript};
ghost use Rattle.run_defs.specs.States.{entity};
ghost use Rattle.run_defs.specs.UnitRuns.{UnitRun};
ghost use Rattle.unit_defs.specs.octet_defs.Codec.{Codec};
ghost use Rattle.scenario_text.specs.Texts.{InRange};
ghost use Rattle.scenario_text.specs.declared.event.Event.{Event};
ghost use Rattle.std.specs.List.{AllByRecursion};
ghost use Rattle.std.specs.Prelude.{List, ℕ, ◌≡◌};
ghost use Rattle.unit_defs.specs.Ways.{Message};

use crate::plain_units::Units;

/// A transcript over octets that prints what another one prints, in which control messages are said, delivers what this one delivers,
/// in the same order, with the same COUNTs, and what was offered is the same.
pub fn what_prints_the_same_delivers_the_same()
    ensures order { (encode : Message Token → List ℕ) (said : Transcript (Message Token)) (told : Transcript (List ℕ))
        → printed (λ octets. octets) told ≡ printed encode said
        → (ue : UeId) (bearer : BearerId) → DeliversInOrder (entity ue bearer Dl) said.events
        → DeliversInOrder (entity ue bearer Dl) told.events }
    ensures counts { (encode : Message Token → List ℕ) (said : Transcript (Message Token)) (told : Transcript (List ℕ))
        → printed (λ octets. octets) told ≡ printed encode said
        → CountMeans said.events → CountMeans told.events }
{}

/// Units that answer as the procedure tables do after decoding, with any lawful codec: on scripts of terminals that are set up without
/// messages, of packets that are offered down and aren't empty, of items that are got and carried, and of questions, each bearer
/// delivers a prefix of what was offered, each packet once; all passes over the printed links alone; and COUNTs are places.
pub fn plain_units_keep_the_promise<U: Units>()
    ensures { (codec : Codec) → ReadsItems codec → ReadsPdus codec
        → KeepRange (U.answer codec) U.in_range → IsPlain codec (U.answer codec) U.in_range
        → (events : List Event) → AllByRecursion InRange events → AllByRecursion IsDown events
        → KeepsPromise codec (UnitRun codec (U.answer codec) events).events }
{}

/// The same where items are confirmed too, as far as a CU-UP finds the COUNTs of delivery statuses from their numbers.
pub fn plain_units_keep_it_with_confirmations<U: Units>()
    ensures { (codec : Codec) → ReadsItems codec → ReadsPdus codec
        → (reading : Reading) → StatusesAreNear reading
        → KeepRange (U.answer codec) U.in_range → IsPlain codec (U.answer codec) U.in_range
        → (events : List Event) → AllByRecursion InRange events → AllByRecursion IsConfirmedDown events
        → KeepsPromise codec (UnitRun codec (U.answer codec) events).events }
{}

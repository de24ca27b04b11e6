//! The program over the product's units.

ghost use Rattle.std.specs.Prelude.{◌≡◌, ℕ, map};
ghost use Rattle.std.specs.String.{string_bytes};
ghost use Rattle.gnb_base.specs.Outside.{Rose};
ghost use Rattle.command_defs.specs.Ends.{StopsAtLine};
ghost use Rattle.command_defs.specs.Outside.{outside, CallsTo};
ghost use Rattle.command_run.specs.Ends.{StopsAtEvent as StopsAtStep};
ghost use Rattle.command_run.specs.Run.{setting_of, run_of};
ghost use Rattle.command_run.specs.Whole.{RunsWholly};
ghost use Rattle.command_run.specs.generate.Script.{script};
ghost use Rattle.command_run.specs.generate.Generate.{GeneratesWholly};
ghost use Rattle.commands.specs.command_check.Whole.{ChecksWholly};
ghost use Rattle.command_bearers.specs.declared.command_um.config.UmConfig.{UmConfig as Config};
ghost use Rattle.command_bearers.specs.command_um.Run.{RunsUm};
ghost use Rattle.command_bearers.specs.declared.command_dup.config.DupConfig.{DupConfig as Legs};
ghost use Rattle.command_bearers.specs.script_word.Ends.{StopsAtEvent};
ghost use Rattle.command_bearers.specs.command_dup.Run.{RunsDup};
ghost use Rattle.command_values.specs.declared.way.Way.{Way as Direction};
ghost use Rattle.command_values.specs.Ends.{StopsAtValue};
ghost use Rattle.command_values.specs.Values.{job_of};
ghost use Rattle.command_values.specs.Whole.{AnswersWholly};
ghost use Rattle.command_verify.specs.Ends.{StopsAtVerdict};
ghost use Rattle.command_verify.specs.Whole.{VerifiesWholly};
ghost use Rattle.message_codec_defs.specs.Codecs.{octets_of_message, profile_codec};
ghost use Rattle.run_defs.specs.UnitRuns.{tables};
ghost use Rattle.scenario_cli.specs.declared.top.Form.TheVariants as forms;
ghost use Rattle.scenario_cli.specs.Gnb.{form_of as form_of_words, type_of, FormMeets, WritesProfile, ConvertsValues};

use crate::top::gnb;
use command_defs::Status;
use gnb_base::outside::{Sink, Source};
use site::Site;
use std::alloc::Global;

/// The program over the product's units, which answer as the procedure tables do, after decoding by the profile's codec. Each clause is the one of
/// [`gnb`] by that name.
pub fn base_station<S: Source, K: Sink>(
    alloc: Global,
    words: &[String],
    input: &mut S,
    output: &mut K,
) -> Status
    ensures headline { FormMeets (setting_of profile_codec (tables profile_codec)) (form_of_words (map string_bytes words.now))
        (outside (S.at input.old) (K.at output.old))
        (outside (S.at input.new) (K.at output.new)) result }
    ensures read { result.code ≡ 6 → Rose (S.at input.old).faults (S.at input.new).faults }
    ensures write { result.code ≡ 7 → Rose (K.at output.old).faults (K.at output.new).faults }

    // No call is made after one that failed, and the status reports it.
    ensures calls { CallsTo (outside (S.at input.old) (K.at output.old))
        (outside (S.at input.new) (K.at output.new)) result.code }

    // At a stop at a line the source was read hardly further than that line.
    ensures near { StopsAtLine (S.at input.old) (S.at input.new) result }

    // A whole script is run, where its bytes are reported and no call fails, unless memory runs
    // out. A stop in one of its events is near that event too.
    ensures complete { form_of_words (map string_bytes words.now) ≡ forms.Run
        → RunsWholly (setting_of profile_codec (tables profile_codec)) (outside (S.at input.old) (K.at output.old))
        (outside (S.at input.new) (K.at output.new)) result }
    ensures near_step { form_of_words (map string_bytes words.now) ≡ forms.Run
        → StopsAtStep (S.at input.old) (S.at input.new) result }

    // A generated script is summed up, where no write fails and its run goes on to its end, unless memory runs out.
    ensures generates { (packets : ℕ) → form_of_words (map string_bytes words.now) ≡ forms.Generate packets
        → GeneratesWholly (run_of (setting_of profile_codec (tables profile_codec)) (script packets)) packets
        (outside (S.at input.old) (K.at output.old))
        (outside (S.at input.new) (K.at output.new)) result }

    // So is a whole script of one unacknowledged bearer, and a stop at one of its lines is near it
    // too.
    ensures bearer { (config : Config) → form_of_words (map string_bytes words.now) ≡ forms.Um config
        → RunsUm config (outside (S.at input.old) (K.at output.old))
        (outside (S.at input.new) (K.at output.new)) result }
    ensures near_event { (config : Config) → form_of_words (map string_bytes words.now) ≡ forms.Um config
        → StopsAtEvent (S.at input.old) (S.at input.new) result }

    // The same of a script of one bearer with duplication.
    ensures legs { (config : Legs) → form_of_words (map string_bytes words.now) ≡ forms.Dup config
        → RunsDup config (outside (S.at input.old) (K.at output.old))
        (outside (S.at input.new) (K.at output.new)) result }
    ensures near_leg_event { (config : Legs) → form_of_words (map string_bytes words.now) ≡ forms.Dup config
        → StopsAtEvent (S.at input.old) (S.at input.new) result }

    // Lines after a module are encoded, or decoded, as values of the type that the second word names.
    // Each line of a whole input is answered, and a stop at one is near it too.
    ensures values { (way : Direction) → form_of_words (map string_bytes words.now) ≡ forms.Values way
        → ConvertsValues (job_of way (type_of (map string_bytes words.now)))
        (outside (S.at input.old) (K.at output.old))
        (outside (S.at input.new) (K.at output.new)) result }
    ensures near_value { (way : Direction) → form_of_words (map string_bytes words.now) ≡ forms.Values way
        → StopsAtValue (S.at input.old) (S.at input.new) result }
    ensures answers { (way : Direction) → form_of_words (map string_bytes words.now) ≡ forms.Values way
        → AnswersWholly (job_of way (type_of (map string_bytes words.now)))
        (outside (S.at input.old) (K.at output.old))
        (outside (S.at input.new) (K.at output.new)) result }

    // A whole module is reported, likewise.
    ensures checks { form_of_words (map string_bytes words.now) ≡ forms.Check
        → ChecksWholly (outside (S.at input.old) (K.at output.old))
        (outside (S.at input.new) (K.at output.new)) result }

    // The lines of a whole input are judged, likewise, and a stop at one is near it too.
    ensures verifies { form_of_words (map string_bytes words.now) ≡ forms.Verify
        → VerifiesWholly octets_of_message (outside (S.at input.old) (K.at output.old))
        (outside (S.at input.new) (K.at output.new)) result }
    ensures near_verdict { form_of_words (map string_bytes words.now) ≡ forms.Verify
        → StopsAtVerdict (S.at input.old) (S.at input.new) result }

    // All of the profile's text is written, where no write fails.
    ensures writes { WritesProfile (form_of_words (map string_bytes words.now))
        (outside (S.at input.old) (K.at output.old))
        (outside (S.at input.new) (K.at output.new)) result }
{
    gnb(alloc, words, input, output, Site::new())
}

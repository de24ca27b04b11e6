//! The top call.

ghost use Rattle.std.specs.Prelude.{◌≡◌, ◌≤◌, ℕ, map};
ghost use Rattle.std.specs.String.{string_bytes};
ghost use Rattle.gnb_base.specs.Outside.{Rose};
ghost use Rattle.command_defs.specs.Ends.{StopsAtLine, UsageMeets};
ghost use Rattle.command_defs.specs.Outside.{outside, CallsTo};
ghost use Rattle.message_codec_defs.specs.Codecs.{octets_of_message, profile_codec};
ghost use Rattle.command_run.specs.Ends.{StopsAtEvent as StopsAtStep};
ghost use Rattle.command_run.specs.Run.{setting_of, run_of};
ghost use Rattle.command_run.specs.Whole.{RunsWholly};
ghost use Rattle.command_run.specs.generate.Script.{script};
ghost use Rattle.command_run.specs.generate.Generate.{GenerateMeets, GeneratesWholly};
ghost use Rattle.commands.specs.command_check.Whole.{ChecksWholly};
ghost use Rattle.command_bearers.specs.declared.command_um.config.UmConfig.{UmConfig as Config};
ghost use Rattle.command_bearers.specs.command_um.Run.{RunsUm};
ghost use Rattle.command_bearers.specs.declared.command_dup.config.DupConfig.{DupConfig as Legs};
ghost use Rattle.command_bearers.specs.command_dup.Run.{RunsDup};
ghost use Rattle.command_bearers.specs.script_word.Ends.{StopsAtEvent};
ghost use Rattle.command_values.specs.declared.way.Way.{Way as Direction};
ghost use Rattle.command_values.specs.Ends.{StopsAtValue};
ghost use Rattle.command_values.specs.Values.{job_of};
ghost use Rattle.command_values.specs.Whole.{AnswersWholly};
ghost use Rattle.command_verify.specs.Ends.{StopsAtVerdict};
ghost use Rattle.command_verify.specs.Whole.{VerifiesWholly};
ghost use Rattle.scenario_cli.specs.Gnb.{form_of_one, um_form as um_form_of, dup_form as dup_form_of, generate_form as generate_form_of, values_form as values_form_of, type_of, form_of as form_of_words, FormMeets, WritesProfile, ConvertsValues};
ghost use Rattle.scenario_cli.specs.inside.Timed.{IsTimed};
ghost use Rattle.scenario_cli.specs.inside.Over.{RunsOver};
ghost use Rattle.scenario_cli.specs.inside.Verified.{VerifiesAll};

use command_bearers::command_dup::{DupConfig, run_duplicate};
use command_bearers::command_um::{UmConfig, run_um};
use command_defs::{CommonEnd, Status};
use command_run::generate::run_generated;
use command_run::run_script;
use command_values::{Way, run_values};
use command_verify::verify;
use commands::command_check::check_input;
use commands::command_output::{common_status, stop_line, write_lines};
use commands::command_profile::write_profile;
use gnb_base::outside::{Sink, Source};
use message_codec::ProfileCodec;
use message_spellings::ProfileSpellings;
use profile::Version;
use scenario_text::script_words::forms::{number, sn_bits};
use std::alloc::Global;
use world_steps::Units;

/// The ticks of a timer at most.
const MOST_TICKS: u32 = 1000;

/// The packets of a generated script at most.
const MOST_PACKETS: u32 = 100_000;

/// The packets of a bearer with duplication at least, and at most.
const LEAST_QUOTA: u32 = 4;

const MOST_QUOTA: u32 = 4096;

/// The forms of the program.
#[derive(Clone, Copy, PartialEq, Eq)]
pub enum Form {
    /// A script is run.
    Run,
    /// A script of so many packets is made and run.
    Generate(u32),
    /// A module is checked.
    Check,
    /// The text of the profile's module in this version is written.
    Profile(Version),
    /// A script of one unacknowledged bearer is run.
    Um(UmConfig),
    /// A script of one bearer with duplication is run.
    Dup(DupConfig),
    /// Values of a type are encoded or decoded.
    Values(Way),
    /// A transcript is judged.
    Verify,
    /// The words are no form.
    Other,
}

/// The form that one word is.
fn form_of_word(word: &str) -> Form
    ensures { result ≡ form_of_one word.now }
{
    if word == "run" {
        Form::Run
    } else if word == "check" {
        Form::Check
    } else if word == "profile" {
        Form::Profile(Version::One)
    } else if word == "verify" {
        Form::Verify
    } else {
        Form::Other
    }
}

/// The form of `um` with the length of numbers and the ticks of the timer that these two words are.
fn um_form(bits: &[u8], ticks: &[u8]) -> Form
    ensures exact { result ≡ um_form_of bits.now ticks.now }
    ensures timed { IsTimed result }
{
    let Some(sn) = sn_bits(bits) else {
        return Form::Other;
    };
    let Some(ticks) = number(ticks, 1, MOST_TICKS) else {
        return Form::Other;
    };
    let ticks = ticks as u16;
    Form::Um(UmConfig { sn, ticks })
}

/// The form of `duplicate` with the length of numbers and the quota that these two words are.
fn dup_form(bits: &[u8], quota: &[u8]) -> Form
    ensures exact { result ≡ dup_form_of bits.now quota.now }
    ensures timed { IsTimed result }
{
    let Some(sn) = sn_bits(bits) else {
        return Form::Other;
    };
    let Some(quota) = number(quota, LEAST_QUOTA, MOST_QUOTA) else {
        return Form::Other;
    };
    let quota = quota as u16;
    Form::Dup(DupConfig { sn, quota })
}

/// The form of `generate` with the number of packets that this word is.
fn generate_form(packets: &[u8]) -> Form
    ensures exact { result ≡ generate_form_of packets.now }
    ensures timed { IsTimed result }
{
    match number(packets, 1, MOST_PACKETS) {
        Some(packets) => Form::Generate(packets),
        None => Form::Other,
    }
}

/// The form of a word with the name of a type.
fn values_form(word: &str) -> Form
    ensures { result ≡ values_form_of word.now }
{
    if word == "encode" {
        Form::Values(Way::Encode)
    } else if word == "decode" {
        Form::Values(Way::Decode)
    } else {
        Form::Other
    }
}

/// The name of a type, the second word.
fn type_name(words: &[String]) -> &[u8]
    ensures { result.now ≡ type_of (map string_bytes words.now) }
{
    match words {
        [_, name, ..] => name.as_bytes(),
        _ => &[],
    }
}

/// The form that the words are.
fn form_of(words: &[String]) -> Form
    ensures exact { result ≡ form_of_words (map string_bytes words.now) }
    ensures timed { IsTimed result }
{
    match words {
        [word] => form_of_word(word.as_str()),
        [word, number] if word.as_str() == "profile" && number.as_str() == "2" => {
            Form::Profile(Version::Two)
        }
        [word, packets] if word.as_str() == "generate" => generate_form(packets.as_bytes()),
        [word, _] => values_form(word.as_str()),
        [word, bits, ticks] if word.as_str() == "um" => {
            um_form(bits.as_bytes(), ticks.as_bytes())
        }
        [word, bits, quota] if word.as_str() == "duplicate" => {
            dup_form(bits.as_bytes(), quota.as_bytes())
        }
        _ => Form::Other,
    }
}

/// Reports words that are no form.
fn report_usage<S: Source, K: Sink>(alloc: Global, input: &S, output: &mut K) -> Status
    ensures { UsageMeets (outside (S.at input.now) (K.at output.old))
        (outside (S.at input.now) (K.at output.new)) result }
{
    let usage = Status {
        code: 2,
        place: 0,
        reason: 0,
    };
    match write_lines(alloc, output, &[stop_line(usage)]) {
        Ok(()) => usage,
        Err(end) => common_status(end),
    }
}

/// Runs a script over these units, whose messages are those of the profile.
fn run_over<S: Source, K: Sink, U: Units<ProfileCodec> + Drop>(
    alloc: Global,
    units: U,
    input: &mut S,
    output: &mut K,
) -> Status
    ensures { RunsOver (setting_of profile_codec U.answer) (outside (S.at input.old) (K.at output.old))
        (outside (S.at input.new) (K.at output.new)) result }
{
    match ProfileCodec::new(alloc) {
        Ok(codec) => run_script(alloc, codec, units, input, output).status(),
        Err(_) => common_status(CommonEnd::Memory),
    }
}

/// Runs a script of so many packets over these units, likewise.
fn generate_over<S: Source, K: Sink, U: Units<ProfileCodec> + Drop>(
    alloc: Global,
    units: U,
    packets: u32,
    input: &S,
    output: &mut K,
) -> Status
    requires { packets ≤ 100000 }
    ensures meets { GenerateMeets (run_of (setting_of profile_codec U.answer) (script packets)) packets
        (outside (S.at input.now) (K.at output.old)) (outside (S.at input.now) (K.at output.new)) result }
    ensures complete { GeneratesWholly (run_of (setting_of profile_codec U.answer) (script packets)) packets
        (outside (S.at input.now) (K.at output.old)) (outside (S.at input.now) (K.at output.new)) result }
{
    match ProfileCodec::new(alloc) {
        Ok(codec) => run_generated(alloc, codec, units, packets, input, output),
        Err(_) => common_status(CommonEnd::Memory),
    }
}

/// Judges a transcript, whose control messages are spelled by the profile.
fn verify_text<S: Source, K: Sink>(alloc: Global, input: &mut S, output: &mut K) -> Status
    ensures { VerifiesAll (outside (S.at input.old) (K.at output.old))
        (outside (S.at input.new) (K.at output.new)) result }
{
    match ProfileCodec::new(alloc) {
        Ok(codec) => {
            let spells = ProfileSpellings::of(codec);
            verify(alloc, &spells, input, output).status()
        }
        Err(_) => common_status(CommonEnd::Memory),
    }
}

/// The program, with its words, its input, its output, and the units of `run` and `generate`.
pub fn gnb<S: Source, K: Sink, U: Units<ProfileCodec> + Drop>(
    alloc: Global,
    words: &[String],
    input: &mut S,
    output: &mut K,
    units: U,
) -> Status
    ensures headline { FormMeets (setting_of profile_codec U.answer) (form_of_words (map string_bytes words.now))
        (outside (S.at input.old) (K.at output.old))
        (outside (S.at input.new) (K.at output.new)) result }
    ensures read { result.code ≡ 6 → Rose (S.at input.old).faults (S.at input.new).faults }
    ensures write { result.code ≡ 7 → Rose (K.at output.old).faults (K.at output.new).faults }

    // No call is made after one that failed, and the status reports it.
    ensures calls { CallsTo (outside (S.at input.old) (K.at output.old))
        (outside (S.at input.new) (K.at output.new)) result.code }

    // At a stop at a line the source was read hardly further than that line.
    ensures near { StopsAtLine (S.at input.old) (S.at input.new) result }

    // A whole script is run, where its bytes are reported and no call fails, unless memory runs
    // out. A stop in one of its events is near that event too.
    ensures complete { form_of_words (map string_bytes words.now) ≡ Form.Run
        → RunsWholly (setting_of profile_codec U.answer) (outside (S.at input.old) (K.at output.old))
        (outside (S.at input.new) (K.at output.new)) result }
    ensures near_step { form_of_words (map string_bytes words.now) ≡ Form.Run
        → StopsAtStep (S.at input.old) (S.at input.new) result }

    // A generated script is summed up, where no write fails and its run goes on to its end, unless memory runs out.
    ensures generates { (packets : ℕ) → form_of_words (map string_bytes words.now) ≡ Form.Generate packets
        → GeneratesWholly (run_of (setting_of profile_codec U.answer) (script packets)) packets
        (outside (S.at input.old) (K.at output.old))
        (outside (S.at input.new) (K.at output.new)) result }

    // So is a whole script of one unacknowledged bearer, and a stop at one of its lines is near it
    // too.
    ensures bearer { (config : Config) → form_of_words (map string_bytes words.now) ≡ Form.Um config
        → RunsUm config (outside (S.at input.old) (K.at output.old))
        (outside (S.at input.new) (K.at output.new)) result }
    ensures near_event { (config : Config) → form_of_words (map string_bytes words.now) ≡ Form.Um config
        → StopsAtEvent (S.at input.old) (S.at input.new) result }

    // The same of a script of one bearer with duplication.
    ensures legs { (config : Legs) → form_of_words (map string_bytes words.now) ≡ Form.Dup config
        → RunsDup config (outside (S.at input.old) (K.at output.old))
        (outside (S.at input.new) (K.at output.new)) result }
    ensures near_leg_event { (config : Legs) → form_of_words (map string_bytes words.now) ≡ Form.Dup config
        → StopsAtEvent (S.at input.old) (S.at input.new) result }

    // Lines after a module are encoded, or decoded, as values of the type that the second word names.
    // Each line of a whole input is answered, and a stop at one is near it too.
    ensures values { (way : Direction) → form_of_words (map string_bytes words.now) ≡ Form.Values way
        → ConvertsValues (job_of way (type_of (map string_bytes words.now)))
        (outside (S.at input.old) (K.at output.old))
        (outside (S.at input.new) (K.at output.new)) result }
    ensures near_value { (way : Direction) → form_of_words (map string_bytes words.now) ≡ Form.Values way
        → StopsAtValue (S.at input.old) (S.at input.new) result }
    ensures answers { (way : Direction) → form_of_words (map string_bytes words.now) ≡ Form.Values way
        → AnswersWholly (job_of way (type_of (map string_bytes words.now)))
        (outside (S.at input.old) (K.at output.old))
        (outside (S.at input.new) (K.at output.new)) result }

    // A whole module is reported, likewise.
    ensures checks { form_of_words (map string_bytes words.now) ≡ Form.Check
        → ChecksWholly (outside (S.at input.old) (K.at output.old))
        (outside (S.at input.new) (K.at output.new)) result }

    // The lines of a whole input are judged, likewise, and a stop at one is near it too.
    ensures verifies { form_of_words (map string_bytes words.now) ≡ Form.Verify
        → VerifiesWholly octets_of_message (outside (S.at input.old) (K.at output.old))
        (outside (S.at input.new) (K.at output.new)) result }
    ensures near_verdict { form_of_words (map string_bytes words.now) ≡ Form.Verify
        → StopsAtVerdict (S.at input.old) (S.at input.new) result }

    // All of the profile's text is written, where no write fails.
    ensures writes { WritesProfile (form_of_words (map string_bytes words.now))
        (outside (S.at input.old) (K.at output.old))
        (outside (S.at input.new) (K.at output.new)) result }
{
    match form_of(words) {
        Form::Run => run_over(alloc, units, input, output),
        Form::Generate(packets) => generate_over(alloc, units, packets, input, output),
        Form::Check => check_input(alloc, input, output).status(),
        Form::Profile(version) => write_profile(version, input, output),
        Form::Um(config) => run_um(alloc, config, input, output).status(),
        Form::Dup(config) => run_duplicate(alloc, config, input, output).status(),
        Form::Values(way) => run_values(alloc, way, type_name(words), input, output).status(),
        Form::Verify => verify_text(alloc, input, output),
        Form::Other => report_usage(alloc, input, output),
    }
}

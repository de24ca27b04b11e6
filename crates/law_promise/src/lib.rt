//! The promise of the word `run`, of what is written. Each function does nothing: its contract is the law.
#![tactic(auto)]

ghost use Rattle.unit_defs.specs.codec_defs.Reading.{ReadsItems, ReadsPdus};
ghost use Rattle.command_defs.specs.Outside.{OutsideAt};
ghost use Rattle.command_run.specs.Run.{RunMeets, setting_of};
ghost use Rattle.command_run.specs.declared.end.RunEnd.{RunEnd};
ghost use Rattle.law_promise.specs.Written.{WritesOne};
ghost use Rattle.message_codec_defs.specs.Codecs.{profile_codec};
ghost use Rattle.run_defs.specs.plain_defs.Plain.{IsPlain, KeepRange};
ghost use Rattle.run_defs.specs.UnitRuns.{tables};
ghost use Rattle.unit_defs.specs.octet_defs.Codec.{Codec};

use law_octets_say_the_same::plain_units::Units;

/// At every end of `run` the sink got the text of one transcript, of the events of the lines that were taken up to there, and of no other, or a
/// front of it where a write failed or memory ran out. In this transcript links keep order; and where terminals are set up without
/// messages, packets are offered down, and items are got and carried, each bearer delivers a prefix of what was offered, each packet
/// once, over the printed links alone, and COUNTs are places.
pub fn what_is_written_keeps_the_promise<U: Units>()
    ensures { (codec : Codec) → ReadsItems codec → ReadsPdus codec
        → KeepRange (U.answer codec) U.in_range → IsPlain codec (U.answer codec) U.in_range
        → (before after : OutsideAt) (end : RunEnd)
        → RunMeets (setting_of codec (U.answer codec)) before after end
        → WritesOne (setting_of codec (U.answer codec)) before after end }
{}

/// So it is of the product: its units answer as the procedure tables do after decoding, with the codec of the profile.
pub fn what_the_product_writes_keeps_the_promise()
    ensures { (before after : OutsideAt) (end : RunEnd)
        → RunMeets (setting_of profile_codec (tables profile_codec)) before after end
        → WritesOne (setting_of profile_codec (tables profile_codec)) before after end }
{}

//! Laws that units over octets act on what they got, and which need not. Each function does nothing: its contract is the law.

ghost use Rattle.unit_defs.specs.codec_defs.Reading.{ReadsItems, ReadsPdus};
ghost use Rattle.gnb_types.specs.declared.names.NodeId.{NodeId};
ghost use Rattle.law_units_act_locally.specs.cu_cp_interfaces.Interfaces.{IsOf};
ghost use Rattle.law_octets_say_the_same.specs.octet_facts.Ranges.{IsConfirmedDown, IsDown};
ghost use Rattle.law_octets_say_the_same.specs.octet_local.Example.{from_nothing, starting};
ghost use Rattle.law_octets_say_the_same.specs.octet_local.Spelt.{Spelt};
ghost use Rattle.law_octets_say_the_same.specs.octet_runs.Printed.{printed};
ghost use Rattle.law_octets_say_the_same.specs.octet_downlink_only.Near.{StatusesAreNear};
ghost use Rattle.message_types.specs.declared.rrc.Token.{Token};
ghost use Rattle.run_defs.specs.Local.{Local};
ghost use Rattle.run_defs.specs.Runs.{Reading, Transcript};
ghost use Rattle.run_defs.specs.UnitRuns.{tables, UnitRun};
ghost use Rattle.scenario_text.specs.declared.event.Event.{Event};
ghost use Rattle.std.specs.List.{AllByRecursion};
ghost use Rattle.std.specs.Prelude.{Bool, true, List, ℕ, ◌≡◌};
ghost use Rattle.unit_defs.specs.Ways.{Message};
ghost use Rattle.unit_defs.specs.octet_defs.Codec.{Codec};
ghost use Rattle.unit_defs.specs.octet_defs.Spelling.{spelled};

/// A transcript over octets that prints what another one prints is as local as this: where what units put and deliver in this one
/// stood in what they got, and control messages are as they should be, so it is in that one, with the octets that these spell.
pub fn what_prints_the_same_is_as_local()
    ensures { (encode : Message Token → List ℕ) (is_so : NodeId → NodeId → Message Token → Bool)
        (said : Transcript (Message Token)) (told : Transcript (List ℕ))
        → printed (λ octets. octets) told ≡ printed encode said
        → Local (λ from to message. is_so from to message ≡ true) said.events
        → Local (Spelt encode (λ from to message. is_so from to message ≡ true)) told.events }
{}

/// So `Local` holds, whole, of the run of the tables after decoding, for every lawful codec, where terminals are set up without
/// messages, packets that aren't empty are offered down, and items are got and carried.
pub fn packets_down_are_local_over_octets()
    ensures { (codec : Codec) → ReadsItems codec → ReadsPdus codec → (reading : Reading)
        → (events : List Event) → AllByRecursion IsDown events
        → Local (Spelt (spelled codec) IsOf) (UnitRun codec (tables codec) events).events }
{}

/// The same where items are confirmed too, as far as a CU-UP finds the COUNTs of delivery statuses from their numbers.
pub fn confirmed_packets_are_local_over_octets()
    ensures { (codec : Codec) → ReadsItems codec → ReadsPdus codec
        → (reading : Reading) → StatusesAreNear reading
        → (events : List Event) → AllByRecursion IsConfirmedDown events
        → Local (Spelt (spelled codec) IsOf) (UnitRun codec (tables codec) events).events }
{}

/// Of units of any meaning it isn't so: they may deliver, once they are started, what no one offered and nothing brought.
pub fn units_of_any_meaning_need_not_be_local()
    ensures { (codec : Codec)
        → Local (λ from to octets. Unit {0}) (UnitRun codec from_nothing starting).events → ⊥ }
{}

//! Laws of sound transcripts. Each function does nothing: its contract is the law.
#![tactic(auto)]

ghost use Rattle.std.specs.Prelude.{◌≡◌, ℕ, List, [], ◌∷◌, ◌++◌, length};
ghost use Rattle.transcript_defs.specs.declared.rule.Rule.{Rule};
ghost use Rattle.gnb_types.specs.declared.names.UeId.{UeId};
ghost use Rattle.gnb_types.specs.declared.names.BearerId.{BearerId};
ghost use Rattle.gnb_types.specs.declared.names.Dir.{Dir};
ghost use Rattle.gnb_types.specs.declared.keys.EntityKey.{EntityKey};
ghost use Rattle.scenario_text.specs.declared.line.OutLine.TheVariants.{Quiet};
ghost use Rattle.transcript_defs.specs.declared.line.TextLine.{TextLine};
ghost use Rattle.transcript_defs.specs.declared.line.TextLine.TheVariants.{Printed};
ghost use Rattle.transcript_defs.specs.Past.{accepted, offered, delivered};
ghost use Rattle.transcript_defs.specs.Lines.{text_of, IsProper};
ghost use Rattle.transcript_defs.specs.Rules.{Spelling};
ghost use Rattle.transcript_defs.specs.Sound.{AreSound, Sound, IsUnsound};
ghost use Rattle.transcript_defs.specs.declared.rule.Rule.TheVariants as rules;
ghost use Rattle.std.specs.List.{flat_map, range_with_len};
ghost use Rattle.run_defs.specs.Said.{Wires, counts_of};
ghost use Rattle.law_transcripts.specs.OfRuns.{lines_of_run};
ghost use Rattle.law_transcripts.specs.Worked.{first_packet, counts_no_event, takes_nothing, puts_for_nobody, delivers_no_offer, is_quiet_without_offers, delivers_unseen, spells_nothing, ends_early};

/// A text is sound, or breaks a rule at a first place: it can't be that neither holds.
pub fn each_text_is_sound_or_breaks_a_rule()
    ensures { (encode : Spelling) (texts : List (List ℕ)) → (Sound encode texts → ⊥)
        → ((place : ℕ) (rule : Rule) → IsUnsound encode texts place rule → ⊥) → ⊥ }
{}

/// No text is sound and breaks a rule.
pub fn a_sound_text_breaks_no_rule()
    ensures { (encode : Spelling) (texts : List (List ℕ)) (place : ℕ) (rule : Rule)
        → Sound encode texts → IsUnsound encode texts place rule → ⊥ }
{}

/// A text that isn't sound has one place, and one rule that is reported for it.
pub fn the_first_broken_rule_is_one()
    ensures { (encode : Spelling) (texts : List (List ℕ)) (place other : ℕ) (rule next : Rule)
        → IsUnsound encode texts place rule → IsUnsound encode texts other next
        → (place ≡ other) × (rule ≡ next) }
{}

/// No two lines of a transcript have one text.
pub fn texts_tell_lines_apart()
    ensures { (a b : TextLine) → IsProper a → IsProper b → text_of a ≡ text_of b → a ≡ b }
{}

/// In a sound transcript the packets that were delivered on a bearer and direction are a prefix of those that were offered there, each once and
/// in order, whatever the line `next` is that is looked at.
pub fn deliveries_are_a_prefix()
    ensures { (encode : Spelling) (key : EntityKey) (next : TextLine) (past : List TextLine) → AreSound encode past
        → (more : List (List ℕ)) × (offered key (accepted next past) ≡ delivered key past ++ more) }
{}

/// Where a sound transcript says that a bearer is quiet, all was delivered that was offered there, in both directions.
pub fn a_quiet_bearer_has_delivered_all()
    ensures { (encode : Spelling) (past : List TextLine) (ue : UeId) (bearer : BearerId) (downlink uplink : ℕ)
        → AreSound encode (Printed (Quiet ue bearer downlink uplink) ∷ past) → (dir : Dir)
        → delivered (record { ue = ue; bearer = bearer; dir = dir }) past
        ≡ offered (record { ue = ue; bearer = bearer; dir = dir }) (accepted (Printed (Quiet ue bearer downlink uplink)) past) }
{}

/// A sound transcript keeps the wires as a run does: what is taken from a tunnel or radio is the oldest item put there that was neither taken
/// nor lost, control messages are numbered 1, 2, .. as they are put, and what is given repeats the message of its number.
pub fn a_sound_transcript_keeps_the_wires()
    ensures { (encode : Spelling) (past : List TextLine) → AreSound encode past → Wires (lines_of_run past) }
{}

/// In a sound transcript the packets that were delivered on a bearer and direction show the COUNTs 0, 1, 2 and so on, in this order.
pub fn counts_are_places()
    ensures { (encode : Spelling) (key : EntityKey) (past : List TextLine) → AreSound encode past
        → flat_map (counts_of key) (lines_of_run past) ≡ range_with_len 0 (length (delivered key past)) }
{}

/// The transcript of the first packet of a static terminal is sound.
pub fn the_first_packet_is_sound()
    ensures { (encode : Spelling) → Sound encode first_packet }
{}

/// For each rule there is a text that breaks it and none before it, at the place that is reported.
pub fn each_rule_can_be_broken()
    ensures form { (encode : Spelling) → IsUnsound encode counts_no_event 1 rules.Form }
    ensures wire { (encode : Spelling) → IsUnsound encode takes_nothing 2 rules.Wire }
    ensures packet { (encode : Spelling) → IsUnsound encode puts_for_nobody 2 rules.Packet }
    ensures count { (encode : Spelling) → IsUnsound encode delivers_no_offer 2 rules.Count }
    ensures order { (encode : Spelling) → IsUnsound encode is_quiet_without_offers 2 rules.Order }
    ensures seen { (encode : Spelling) → IsUnsound encode delivers_unseen 3 rules.Seen }
    ensures spelling { IsUnsound (λ control. []) spells_nothing 2 rules.Spelling }
    ensures end { (encode : Spelling) → IsUnsound encode ends_early 2 rules.End }
{}

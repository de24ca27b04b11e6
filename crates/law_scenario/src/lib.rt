//! Laws of the text of a scenario. No code stands on them.
#![tactic(auto)]

ghost use Rattle.std.specs.Prelude.{◌≡◌, ◌↔◌, ℕ, List, Err};
ghost use Rattle.scenario_text.specs.declared.script_words.reason.TextReason.{TextReason};
ghost use Rattle.scenario_text.specs.Grammar.{event_of};
ghost use Rattle.scenario_text.specs.Texts.{event_text, InRange, IsTextOf};
ghost use Rattle.scenario_text.specs.declared.event.Event.{Event};
ghost use Rattle.scenario_text.specs.declared.line.OutLine.{OutLine};
ghost use Rattle.scenario_text.specs.Print.{line_text, print};
ghost use Rattle.transcript_defs.specs.Lines.{IsLine, AreLines};
ghost use Rattle.law_scenario.specs.FirstWrong.{IsFirstWrong};

/// A line is read as an event exactly where it is a text of it.
pub fn lines_are_texts()
    ensures { (line : List ℕ) (event : Event) → (event_of line ≡ Ok event) ↔ IsTextOf line event }
{}

/// What is printed of an event is read again as the event.
pub fn printed_events_are_read()
    ensures { (event : Event) → InRange event → event_of (event_text event) ≡ Ok event }
{}

/// No two events have one text.
pub fn texts_tell_events_apart()
    ensures { (a b : Event) → InRange a → InRange b → event_text a ≡ event_text b → a ≡ b }
{}

/// A line is refused for a reason exactly where its first wrong word is wrong in the way that the reason names: the words
/// before it are the front of an event's text.
pub fn the_first_wrong_word_decides()
    ensures { (line : List ℕ) (reason : TextReason) → (event_of line ≡ Err reason) ↔ IsFirstWrong line reason }
{}

/// No two lines of a transcript have one text.
pub fn texts_tell_lines_apart()
    ensures { (a b : OutLine) → IsLine a → IsLine b → line_text a ≡ line_text b → a ≡ b }
{}

/// No two transcripts have one text: what is printed says one thing.
pub fn texts_tell_transcripts_apart()
    ensures { (xs ys : List OutLine) → AreLines xs → AreLines ys → print xs ≡ print ys → xs ≡ ys }
{}

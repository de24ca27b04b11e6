//! Laws of the text of a script of one unacknowledged bearer. No code stands on them.

ghost use Rattle.std.specs.Prelude.{◌≡◌, ◌↔◌, ℕ, List, Ok, Err};
ghost use Rattle.scenario_text.specs.declared.script_words.reason.TextReason.{TextReason};
ghost use Rattle.um_defs.specs.declared.types.event.UmEvent.{UmEvent};
ghost use Rattle.um_defs.specs.declared.types.line.UmLine.{UmLine};
ghost use Rattle.um.specs.text.Grammar.{event_of};
ghost use Rattle.um.specs.text.Texts.{event_text, InRange, IsTextOf};
ghost use Rattle.um.specs.text.Print.{line_text};
ghost use Rattle.law_um.specs.text.FirstWrong.{IsFirstWrong};
ghost use Rattle.law_um.specs.text.Lines.{IsLine};

/// A line is read as an event exactly where it is a text of it.
pub fn lines_are_texts()
    ensures { (line : List ℕ) (event : UmEvent) → (event_of line ≡ Ok event) ↔ IsTextOf line event }
{}

/// What is printed of an event is read again as the event.
pub fn printed_events_are_read()
    ensures { (event : UmEvent) → InRange event → event_of (event_text event) ≡ Ok event }
{}

/// No two events have one text.
pub fn texts_tell_events_apart()
    ensures { (a b : UmEvent) → InRange a → InRange b → event_text a ≡ event_text b → a ≡ b }
{}

/// A line is refused for a reason exactly where its first wrong word is wrong in the way that the reason names: the words
/// before it are the front of an event's text.
pub fn the_first_wrong_word_decides()
    ensures { (line : List ℕ) (reason : TextReason) → (event_of line ≡ Err reason) ↔ IsFirstWrong line reason }
{}

/// No two lines that are printed have one text.
pub fn texts_tell_lines_apart()
    ensures { (a b : UmLine) → IsLine a → IsLine b → line_text a ≡ line_text b → a ≡ b }
{}

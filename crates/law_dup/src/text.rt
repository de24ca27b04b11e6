//! Laws of the text of a script of one bearer with duplication. No code stands on them.

ghost use Rattle.std.specs.Prelude.{◌≡◌, ◌↔◌, ℕ, List, Ok, Err};
ghost use Rattle.scenario_text.specs.declared.script_words.reason.TextReason.{TextReason};
ghost use Rattle.dup_defs.specs.declared.types.event.DupEvent.{DupEvent};
ghost use Rattle.dup_defs.specs.declared.types.line.DupLine.{DupLine};
ghost use Rattle.dup.specs.text.Grammar.{event_of};
ghost use Rattle.dup.specs.text.Texts.{event_text, InRange, IsTextOf};
ghost use Rattle.dup.specs.text.Print.{line_text};
ghost use Rattle.law_dup.specs.text.FirstWrong.{IsFirstWrong};
ghost use Rattle.law_dup.specs.text.Lines.{IsLine};

/// A line is read as an event exactly where it is a text of it.
pub fn lines_are_texts()
    ensures { (line : List ℕ) (event : DupEvent) → (event_of line ≡ Ok event) ↔ IsTextOf line event }
{}

/// What is printed of an event is read again as the event.
pub fn printed_events_are_read()
    ensures { (event : DupEvent) → InRange event → event_of (event_text event) ≡ Ok event }
{}

/// No two events have one text.
pub fn texts_tell_events_apart()
    ensures { (a b : DupEvent) → InRange a → InRange b → event_text a ≡ event_text b → a ≡ b }
{}

/// A line is refused for a reason exactly where its first wrong word is wrong in the way that the reason names: the words
/// before it are the front of an event's text.
pub fn the_first_wrong_word_decides()
    ensures { (line : List ℕ) (reason : TextReason) → (event_of line ≡ Err reason) ↔ IsFirstWrong line reason }
{}

/// No two lines that are printed have one text.
pub fn texts_tell_lines_apart()
    ensures { (a b : DupLine) → IsLine a → IsLine b → line_text a ≡ line_text b → a ≡ b }
{}

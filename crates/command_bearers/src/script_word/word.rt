//! What a word gives, so that its scripts can be run.

ghost use Rattle.std.specs.Prelude.{◌≡◌, List, [], IfOk};
ghost use Rattle.scenario_text.specs.script_words.Answers.{GivesOrMemory};
ghost use Rattle.command_bearers.specs.script_word.Meaning.{WordMeaning, IsLawful};
ghost use Rattle.command_bearers.specs.script_word.inside.Applied.{IsApplied};

use crate::script_word::end::StopCause;
use gnb_types::items::Memory;
use gnb_types::octets::Octets;
use scenario_text::script_words::reason::TextError;
use std::alloc::Global;

/// What an event came to: the text of its own line and of the lines that it prints, and why the run stops in it, if it does.
#[derive(Drop)]
pub struct Happening {
    pub text: Octets,
    pub cause: Option<StopCause>,
}

/// A word whose input is a script of events without a header. `meaning` is what the word means, in the terms of its definitions; `ran`
/// says that a run of the code is that of these events, and goes on after them.
pub trait ScriptWord {
    type Event: Drop;

    type Run: Drop;

    ghost meaning: { Self → WordMeaning Self.Event };

    /// Whether the word may be run so.
    ghost valid: { Self → Type 0 };

    /// What is known of an event that was read.
    ghost in_range: { Self.Event → Type 0 };

    ghost ran: { Self → Self.Run → List Self.Event → Type 0 };

    /// The run before the first event.
    fn begin(&self, alloc: Global) -> Result<Self::Run, Memory>
        requires { valid self.now }
        ensures { IfOk result (λ run. ran self.now run []) };

    /// The event of a line that isn't skipped.
    fn read_event(&self, alloc: Global, line: &[u8]) -> Result<Self::Event, TextError>
        ensures exact { GivesOrMemory (λ x. x) result ((meaning self.now).event_of line.now) }
        ensures in_range { IfOk result in_range };

    /// Applies an event to a run that goes on.
    fn apply(
        &self,
        alloc: Global,
        run: &mut Self::Run,
        event: &Self::Event,
    ) -> Result<Happening, Memory>
        requires { in_range event.now }
        ensures { IfOk result (λ h. (events : List Self.Event) → ran self.now run.old events
            → IsApplied (meaning self.now) (ran self.now run.new) events event.now h) };

    ghost lawful: { (word : Self) → IsLawful (meaning word) };
}

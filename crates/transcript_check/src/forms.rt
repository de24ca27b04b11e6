//! Where a line may stand.

ghost use Rattle.std.specs.Prelude.{◌≡◌, ◌↔◌, IsTrue, option_copied, reverse, count_by, cond, ◌+◌, ◌<◌};
ghost use Rattle.transcript_defs.specs.Rules.{IsFirst, IsLast, IsStop, CountsEvents};
ghost use Rattle.transcript_check.specs.inside.Judge.{Follows, shows_event};

use gnb_types::items::Items;
use scenario_text::line::OutLine;
use transcript_defs::line::TextLine;

/// Whether a line may stand after the newest line.
pub fn may_follow(newest: Option<&TextLine>, line: &TextLine) -> bool
    ensures { IsTrue result ↔ Follows (option_copied newest.entry) line.now }
{
    match newest {
        None => is_first(line),
        Some(TextLine::Printed { line: newest }) => match newest {
            OutLine::End { .. } => false,
            OutLine::Stop { .. } => false,
            OutLine::Outstanding { .. } => is_stop(line),
            _ => true,
        },
        Some(TextLine::OutstandingWide { .. }) => is_stop(line),
        Some(TextLine::LostMore { .. }) => true,
    }
}

fn is_first(line: &TextLine) -> bool
    ensures { IsTrue result ↔ IsFirst line.now }
{
    let TextLine::Printed { line } = line else {
        return false;
    };
    match line {
        OutLine::Happens { .. } => true,
        OutLine::End { .. } => true,
        OutLine::Stop { .. } => true,
        _ => false,
    }
}

/// Whether a text may end after this line.
pub fn is_last(line: &TextLine) -> bool
    ensures { IsTrue result ↔ IsLast line.now }
{
    let TextLine::Printed { line } = line else {
        return false;
    };
    match line {
        OutLine::End { .. } => true,
        OutLine::Stop { .. } => true,
        _ => false,
    }
}

fn is_stop(line: &TextLine) -> bool
    ensures { IsTrue result ↔ IsStop line.now }
{
    let TextLine::Printed { line } = line else {
        return false;
    };
    match line {
        OutLine::Stop { .. } => true,
        _ => false,
    }
}

/// Whether the number of a last line is that of the events.
pub fn counts_events(lines: &Items<TextLine>, line: &TextLine) -> bool
    ensures { IsTrue result ↔ CountsEvents (reverse lines.now) line.now }
{
    let TextLine::Printed { line } = line else {
        return true;
    };
    match line {
        // No line follows a last line, so that all lines are looked at once for each text.
        OutLine::End { events } => *events == events_in(lines.as_slice()) as u64,
        _ => true,
    }
}

/// How many of these lines show an event.
#[tactic(auto, using(crate::proofs::FormLemmas::count_step))]
fn events_in(lines: &[TextLine]) -> usize
    ensures { result ≡ count_by shows_event lines.now }
{
    let mut events = 0;
    for line in lines {
        events = counted(events, line);
    }
    events
}

fn counted(events: usize, line: &TextLine) -> usize
    requires { events < usize.MAX }
    ensures { result ≡ events + cond (shows_event line.now) 1 0 }
{
    if is_event(line) { events + 1 } else { events }
}

#[tactic(auto, unfolding(crate::specs::inside::Judge::shows_event))]
fn is_event(line: &TextLine) -> bool
    ensures { result ≡ shows_event line.now }
{
    let TextLine::Printed { line } = line else {
        return false;
    };
    match line {
        OutLine::Happens { .. } => true,
        _ => false,
    }
}

//! How a run of the generated script ends, the status that reports it, and what is written then.

ghost use Rattle.std.specs.Prelude.{◌≡◌, IfOk};
ghost use Rattle.command_run.specs.generate.Ends.{generate_status, summary, end_text};

use command_defs::Status;
use commands::command_output::{stop_line, text_of};
use gnb_types::octets::{Memory, Octets};
use run_links::spans::Outstanding;
use std::alloc::Global;

/// How a run of the generated script ended.
#[derive(Clone, Copy)]
pub enum GenerateEnd {
    /// Every event was applied.
    Done {
        packets: u32,
    },
    /// After a step of the event at line `place` the COUNTs of a bearer span more than half the space of its numbers.
    Outstanding {
        place: u64,
        outstanding: Outstanding,
    },
    /// In a step of the event at line `place` a counter, by its number, would pass its last value.
    Spent {
        place: u64,
        counter: u8,
    },
}

/// The line that sums up a run.
fn summary(alloc: Global, packets: u32) -> Result<Octets, Memory>
    ensures { IfOk result (λ text. text ≡ summary packets) }
{
    let returns = packets / 100;
    let events = 2 + 6 * u64::from(packets) + 9 * u64::from(returns);
    let text = format!(in alloc;
        "generated {packets} delivered {packets} returns {returns} events {events} quiet 1\n"
    )?;
    Ok(Octets::from_vec(text.into_bytes()))
}

impl GenerateEnd {
    /// Its status.
    pub fn status(self) -> Status
        ensures { result ≡ generate_status self }
    {
        match self {
            GenerateEnd::Done { .. } => Status {
                code: 0,
                place: 0,
                reason: 0,
            },
            GenerateEnd::Outstanding { place, .. } => Status {
                code: 5,
                place,
                reason: 0,
            },
            GenerateEnd::Spent { place, counter } => Status {
                code: 10,
                place,
                reason: u16::from(counter),
            },
        }
    }

    /// All that is written.
    pub fn text(self, alloc: Global) -> Result<Octets, Memory>
        ensures { IfOk result (λ text. text ≡ end_text self) }
    {
        match self {
            GenerateEnd::Done { packets } => summary(alloc, packets),
            GenerateEnd::Outstanding { outstanding, .. } => {
                text_of(alloc, &[outstanding.line(), stop_line(self.status())])
            }
            GenerateEnd::Spent { .. } => text_of(alloc, &[stop_line(self.status())]),
        }
    }
}

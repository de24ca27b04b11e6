//! The word `profile`: the text of the profile's module is written.

ghost use Rattle.std.specs.Prelude.{◌≡◌};
ghost use Rattle.command_defs.specs.Outside.{outside};
ghost use Rattle.commands.specs.command_profile.Written.{ProfileMeets, WritesWholly};

use crate::command_output::{common_status, write_all};
use command_defs::{CommonEnd, Status};
use gnb_base::outside::{Sink, Source};
use profile::Version;

/// Writes the text of the profile's module in this version. Nothing is read.
pub fn write_profile<S: Source, K: Sink>(version: Version, input: &S, output: &mut K) -> Status
    ensures meets { ProfileMeets version (outside (S.at input.now) (K.at output.old))
        (outside (S.at input.now) (K.at output.new)) result }

    // All of it is written, where no write fails.
    ensures complete { WritesWholly version (outside (S.at input.now) (K.at output.old))
        (outside (S.at input.now) (K.at output.new)) result }
{
    match write_all(output, version.text()) {
        Ok(()) => Status {
            code: 0,
            place: 0,
            reason: 0,
        },
        Err(_) => common_status(CommonEnd::WriteFault),
    }
}

//! The word `generate`.

ghost use Rattle.std.specs.Prelude.{◌≤◌};
ghost use Rattle.run_defs.specs.UnitRuns.{UnitRun};
ghost use Rattle.command_defs.specs.Outside.{outside};
ghost use Rattle.command_run.specs.generate.Script.{script};
ghost use Rattle.command_run.specs.generate.Generate.{GenerateMeets, GeneratesWholly};

use crate::generate::run::run;
use command_defs::{CommonEnd, Status};
use commands::command_output::{common_status, write_all};
use gnb_base::outside::{Sink, Source};
use std::alloc::Global;
use unit_messages::lawful_codecs::LawfulCodec;
use world_steps::Units;

/// Runs a script of so many packets over these units, without its text, and writes one line. Nothing is read.
pub fn run_generated<S: Source, K: Sink, U: Units<C> + Drop, C: LawfulCodec + Drop>(
    alloc: Global,
    codec: C,
    units: U,
    packets: u32,
    input: &S,
    output: &mut K,
) -> Status
    requires { packets ≤ 100000 }
    ensures meets { GenerateMeets (UnitRun C.codec U.answer (script packets)) packets
        (outside (S.at input.now) (K.at output.old)) (outside (S.at input.now) (K.at output.new)) result }

    // Its line is written, where no write fails and the run goes on to its end, unless memory runs out.
    ensures complete { GeneratesWholly (UnitRun C.codec U.answer (script packets)) packets
        (outside (S.at input.now) (K.at output.old)) (outside (S.at input.now) (K.at output.new)) result }
{
    let Ok(end) = run(alloc, codec, units, packets) else {
        return common_status(CommonEnd::Memory);
    };
    let Ok(text) = end.text(alloc) else {
        return common_status(CommonEnd::Memory);
    };
    match write_all(output, text.as_slice()) {
        Ok(()) => end.status(),
        Err(_) => common_status(CommonEnd::WriteFault),
    }
}

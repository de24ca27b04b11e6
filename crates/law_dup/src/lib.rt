//! Laws of the run of a bearer with duplication, for every script. Each function does nothing: its contract is the law.
#![tactic(auto)]

pub mod drain;
pub mod events;
pub mod rows;
pub mod text;

ghost use Rattle.std.specs.Prelude.{ℕ, List};
ghost use Rattle.gnb_types.specs.declared.names.SnBits.{SnBits};
ghost use Rattle.dup_defs.specs.declared.types.event.DupEvent.{DupEvent};
ghost use Rattle.dup_defs.specs.dup_run_defs.Steps.{script_of};
ghost use Rattle.law_dup.specs.Scripts.{IsPrefix, accepted, delivered};

/// In every script, whatever legs fail, mend and change, the packets that are delivered are a prefix of those that were accepted, each once
/// and in order, with COUNTs 0, 1, 2 and so on.
pub fn delivered_packets_are_a_prefix()
    ensures { (sn : SnBits) (quota : ℕ) (events : List DupEvent)
        → IsPrefix (delivered (script_of sn quota events)) (accepted (script_of sn quota events)) }
{}

//! A law of the NR-U numbers on a tunnel, in any run. Each function does nothing: its contract is the law.

ghost use Rattle.gnb_types.specs.declared.keys.TunnelEnd.{TunnelEnd};
ghost use Rattle.law_frames_are_numbered.specs.tunnel_numbers.Tunnels.{AreNumbered, put_there};
ghost use Rattle.law_frames_are_numbered.specs.tunnel_numbers.Worked.{worked, worked_end, worked_frames};
ghost use Rattle.run_defs.specs.Runs.{Reading, Run};
ghost use Rattle.scenario_text.specs.declared.event.Event.{Event};
ghost use Rattle.std.specs.Prelude.{List, ℕ, ◌≡◌};

/// In every run of the whole base station, for every list of events and every tunnel: of what CU-UPs put there the data frames have the
/// numbers 0, 1, 2 and so on, in the order in which they are put.
pub fn frames_of_a_tunnel_are_numbered()
    ensures { (reading : Reading) (events : List Event) (end : TunnelEnd)
        → (last : ℕ) × AreNumbered end.teid 0 (put_there end (Run reading events).events) last }
{}

/// There is a run with two frames on a tunnel.
pub fn a_worked_run_numbers_a_tunnel()
    ensures { (reading : Reading) → put_there worked_end (Run reading worked).events ≡ worked_frames }
{}

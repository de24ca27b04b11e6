//! A law that runs begin in refinement of a bearer's models, and go on so. The function does nothing: its contract is the law.

ghost use Rattle.gnb_types.specs.declared.names.SnBits.TheVariants.{Len12};
ghost use Rattle.proof_bearer_refinement.specs.initial.First.{after, start};
ghost use Rattle.proof_bearer_refinement.specs.run_bearers.Bearers.{Numbering};
ghost use Rattle.proof_bearer_refinement.specs.runs.Steps.{IsRefined, Steps};
ghost use Rattle.proof_bearer_refinement.specs.du_puts.Worked.{bearer, terminal};
ghost use Rattle.run_defs.specs.Runs.{Reading};
ghost use Rattle.std.specs.Prelude.{ℕ};
ghost use Rattle.unit_defs.specs.CuUpRecords.{DownlinkTunnel};

/// What the laws of whole runs ask of a run at its start, and of an offered packet, can be met: where a terminal is set up without
/// messages, the initial models of its bearer, after the switch by which its context has its downlink, are refined by the run; and an
/// offered packet is a step from there.
pub fn a_terminal_starts_refined()
    ensures { (reading : Reading) (n : Numbering)
        → (teid : ℕ) × (d : DownlinkTunnel)
        × IsRefined reading n terminal bearer Len12 64 (start n teid d)
        × Steps reading n terminal bearer Len12 64 (start n teid d) (after reading n teid d) }
{}

//! A law of the frames on one downlink tunnel. Each function does nothing: its contract is the law.

ghost use Rattle.proof_unit_steps.specs.tunnel_frames.OneTunnel.{BearersInOrder, NumbersTunnel, OwnedTunnel, SwitchesFirst, CuUpCounts};
ghost use Rattle.std.specs.Prelude.{ℕ};
ghost use Rattle.unit_defs.specs.CuUp.{cu_up_acts};
ghost use Rattle.unit_defs.specs.CuUpRecords.{CuUp};
ghost use Rattle.unit_defs.specs.Ways.{Input, Way};

/// Where a tunnel leads from no bearer of a CU-UP but its owner, and the owner's next number is how many frames were put there, so
/// it is after any input, and the frames that are put there meanwhile have the numbers that come next; provided that a new request
/// which switches a bearer to the tunnel switches its owner, before any frame was put there.
pub fn a_cu_up_numbers_a_tunnel<M, C, P>()
    ensures { (way : Way M C P) (t : OwnedTunnel) (count : ℕ) (r : CuUp M C) (input : Input C P)
        → BearersInOrder r → CuUpCounts t count r → SwitchesFirst t count r input
        → NumbersTunnel t count (cu_up_acts way r input) }
{}

//! A law of the frames of a bearer's downlink. Each function does nothing: its contract is the law.

ghost use Rattle.gnb_types.specs.declared.names.NodeId.{NodeId};
ghost use Rattle.gnb_types.specs.declared.outputs.Tag.TheVariants.{Absent};
ghost use Rattle.gnb_types.specs.declared.plans.SnStatus.{SnStatus};
ghost use Rattle.proof_unit_steps.specs.frames.Numbered.{NumbersFrom};
ghost use Rattle.std.specs.Prelude.{false, None, Some, true, ℕ};
ghost use Rattle.unit_defs.specs.CuUpBearers.{framed, frozen_to, resumed, switched, with_status, with_uplink};
ghost use Rattle.unit_defs.specs.CuUpItems.{took};
ghost use Rattle.unit_defs.specs.CuUpRecords.{TunnelKind, CuUpScope, CuUpBearer};
ghost use Rattle.unit_defs.specs.Ways.{Taken, Way};

/// Whatever a CU-UP does to a bearer, in any state: the frames that it puts go to the bearer's downlink tunnel, numbered one
/// after another from where it stands, and it stands after them then. A switch begins the new tunnel at 0.
pub fn frames_are_numbered<M, C, P>()
    ensures item { (way : Way M C P) (at : CuUpScope) (kind : TunnelKind) (teid : ℕ) (item : Taken P)
        (b : CuUpBearer)
        → NumbersFrom b.downlink (took way at kind teid item b) }
    ensures poll { (way : Way M C P) (at : CuUpScope) (b : CuUpBearer)
        → NumbersFrom b.downlink (framed way at true false None Absent b) }
    ensures switch { (way : Way M C P) (at : CuUpScope) (du : NodeId) (teid : ℕ) (b : CuUpBearer)
        → NumbersFrom (Some (record { du = du; teid = teid; next = 0 }))
        (switched way at du teid b) }
    ensures freeze { (way : Way M C P) (at : CuUpScope) (peer : NodeId) (down up : ℕ) (b : CuUpBearer)
        → NumbersFrom b.downlink (frozen_to way at peer down up b) }
    ensures status { (way : Way M C P) (at : CuUpScope) (s : SnStatus) (b : CuUpBearer)
        → NumbersFrom b.downlink (with_status way at s b) }
    ensures resume { (way : Way M C P) (at : CuUpScope) (b : CuUpBearer)
        → NumbersFrom b.downlink (resumed way at b) }
    ensures uplinks { (way : Way M C P) (teid : ℕ) (b : CuUpBearer)
        → NumbersFrom b.downlink (with_uplink way teid b) }
{}

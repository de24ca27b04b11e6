//! Laws of the rows of a handover at a CU-UP, on one bearer: each does what its orders do, of the downlink and of the uplink.
//! Each function does nothing: its contract is the law.

ghost use Rattle.std.specs.Prelude.{◌≡◌, ℕ, true, false, [], Some};
ghost use Rattle.gnb_types.specs.declared.names.NodeId.{NodeId};
ghost use Rattle.gnb_types.specs.declared.plans.SnStatus.{SnStatus};
ghost use Rattle.message_types.specs.declared.rrc.Token.{Token};
ghost use Rattle.pdcp_defs.specs.Receivers.{deliver, received_bits};
ghost use Rattle.unit_defs.specs.Ways.{Message, Pdu, Way};
ghost use Rattle.unit_defs.specs.CuUpRecords.{CuUpBearer, CuUpScope};
ghost use Rattle.unit_defs.specs.CuUpBearers.{has_downlink, thawed, owed, switched, with_status, resumed, bits_in};
ghost use Rattle.bearer_defs.specs.chain_defs.Orders.{known, on_downlink};
ghost use Rattle.proof_cu_up_orders.specs.handover_rows.Shown.{Does, handed_up, numbered_all, with_numbered, begun};

/// A switch delivers what the receiver hands up, and begins the downlink: a status report, all that nothing confirmed, and
/// what gets a COUNT then. Before its SN status a target sends nothing.
pub fn a_switch_begins_the_downlink()
    ensures known_ones { (way : Way (Message Token) Token Pdu) (at : CuUpScope) (du : NodeId) (teid : ℕ)
        (b : CuUpBearer) → at.flags.may_serve ≡ true → at.flags.frozen ≡ false
        → at.flags.released ≡ false
        → let c = handed_up (on_downlink b (record { du = du; teid = teid; next = 0 })) in
        Does way at.sn (begun at.sn at.quota c.receiver.deliv (received_bits c.receiver) c)
        (deliver b.receiver).packets (numbered_all at.sn at.quota c) (switched way at du teid b) }
    ensures others { (way : Way (Message Token) Token Pdu) (at : CuUpScope) (du : NodeId) (teid : ℕ)
        (b : CuUpBearer) → at.flags.may_serve ≡ false
        → Does way at.sn [] (deliver b.receiver).packets
        (handed_up (on_downlink b (record { du = du; teid = teid; next = 0 })))
        (switched way at du teid b) }
{}

/// From its SN status on a target goes on where the source stood; where the terminal is there it begins the downlink, with a
/// report of what the source had received.
pub fn a_status_goes_on_from_the_source()
    ensures before { (way : Way (Message Token) Token Pdu) (at : CuUpScope) (s : SnStatus) (b : CuUpBearer)
        → at.flags.arrived ≡ false
        → Does way at.sn [] [] (known b s) (with_status way at s b) }
    ensures arrived { (way : Way (Message Token) Token Pdu) (at : CuUpScope) (s : SnStatus) (b : CuUpBearer)
        → at.flags.arrived ≡ true → at.flags.frozen ≡ false → at.flags.released ≡ false
        → has_downlink b.downlink ≡ true → let c = handed_up (known b s) in
        Does way at.sn (begun at.sn at.quota s.ul_first (bits_in s.ul_received) c)
        (deliver (known b s).receiver).packets (numbered_all at.sn at.quota c)
        (with_status way at s b) }
{}

/// A resume sends what came while frozen, or all that nothing confirmed where a loss was reported meanwhile, delivers what the
/// receiver hands up, and gives COUNTs to what waits.
pub fn a_resume_sends_what_is_assumed()
    ensures serves { (way : Way (Message Token) Token Pdu) (at : CuUpScope) (b : CuUpBearer)
        → at.flags.frozen ≡ false → at.flags.released ≡ false → has_downlink b.downlink ≡ true
        → Does way at.sn (with_numbered at.sn at.quota (owed b) b) (deliver b.receiver).packets
        (numbered_all at.sn at.quota (handed_up (thawed b))) (resumed way at b) }
{}

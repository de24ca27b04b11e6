//! Laws of a terminal: rows that refuse or drop change nothing, what is of another bearer is no order of this one, and
//! both models of the downlink receive alike.
//! Each function does nothing: its contract is the law.

ghost use Rattle.std.specs.Prelude.{◌≡◌, ◌==◌, ℕ, ◌+◌, true, false, ◌&&◌, nat_lt, nat_le, length, List, Option, Some, None};
ghost use Rattle.std.specs.Ordering.{eq_by_cmp};
ghost use Rattle.gnb_types.specs.declared.names.NodeId.{NodeId};
ghost use Rattle.gnb_types.specs.declared.names.UeId.{UeId};
ghost use Rattle.gnb_types.specs.declared.names.BearerId.{BearerId};
ghost use Rattle.gnb_types.specs.declared.names.Dir.{Dir};
ghost use Rattle.gnb_types.specs.declared.names.Dir.TheVariants.{Dl, Ul};
ghost use Rattle.gnb_types.specs.declared.reasons.DropReason.TheVariants.{Stale, NoContext, Unexpected};
ghost use Rattle.gnb_types.specs.declared.reasons.RefuseReason.TheVariants.{NotAccessing, NoHome, Busy, NoRadio, Size, Quota};
ghost use Rattle.gnb_types.specs.Orders.{bearer_cmp};
ghost use Rattle.tables.specs.Tables.{find};
ghost use Rattle.message_types.specs.declared.rrc.Token.{Token};
ghost use Rattle.unit_defs.specs.Ways.{Message, Pdu, Content, Taken, Way, no, puts, drops, packet_input, radio_input, confirm_input, offer_input};
ghost use Rattle.unit_defs.specs.Ue.{UeBearer, UeNode, largest_packet, used_uplink, is_connected, is_accessing, may_obey, may_return, ue_acts, obey, arrive, come_back, accept, fail, offer, take, confirm};
ghost use Rattle.bearer_defs.specs.chain_defs.Models.{Model as DownModel};
ghost use Rattle.bearer_defs.specs.chain_defs.Orders as down;
ghost use Rattle.law_downlink_order.specs.path.Paths.{Path};
ghost use Rattle.law_downlink_order.specs.path.Steps as path;
ghost use Rattle.proof_node_orders.specs.terminal_inputs.Inputs.{Models, none, orders_by};
ghost use Rattle.proof_node_orders.specs.terminal_refusals.Ways.{IsAlike, steps_for};

/// What is of another bearer is no order of this one.
pub fn other_bearers_stay()
    ensures radio { (way : Way (Message Token) Token Pdu) (u : UeNode) (b : Models)
        (bearer other : BearerId) → eq_by_cmp bearer_cmp bearer other ≡ false
        → (to : Option ℕ) (ue : UeId) (dir : Dir) (pdu : Pdu) (content : Content)
        → orders_by way u b bearer to (radio_input ue other dir pdu content) ≡ none }
    ensures confirmed { (way : Way (Message Token) Token Pdu) (u : UeNode) (b : Models)
        (bearer other : BearerId) → eq_by_cmp bearer_cmp bearer other ≡ false
        → (to : Option ℕ) (ue : UeId) (dir : Dir) (pdu : Pdu) (content : Content)
        → orders_by way u b bearer to (confirm_input ue other dir pdu content) ≡ none }
    ensures offered { (way : Way (Message Token) Token Pdu) (u : UeNode) (b : Models)
        (bearer other : BearerId) → eq_by_cmp bearer_cmp bearer other ≡ false
        → (to : Option ℕ) (ue : UeId) (packet : List ℕ)
        → orders_by way u b bearer to (offer_input ue other packet) ≡ none }
{}

/// A row that refuses or drops keeps the terminal as it is.
pub fn refusals_change_nothing()
    ensures commands { (way : Way (Message Token) Token Pdu) (u : UeNode) (epoch : ℕ) (goal : NodeId)
        → (may_obey way u.state && epoch == u.epoch + 1) ≡ false
        → obey way epoch goal u ≡ drops Stale u }
    ensures arrivals { (way : Way (Message Token) Token Pdu) (u : UeNode)
        → is_accessing u.state ≡ false → arrive way u ≡ puts (no NotAccessing) u }
    ensures homeless { (way : Way (Message Token) Token Pdu) (u : UeNode) → u.home ≡ None
        → come_back way u ≡ puts (no NoHome) u }
    ensures returns { (way : Way (Message Token) Token Pdu) (u : UeNode) (home : NodeId)
        → u.home ≡ Some home → may_return u.state ≡ false → come_back way u ≡ puts (no Busy) u }
    ensures accepted { (way : Way (Message Token) Token Pdu) (u : UeNode) (epoch : ℕ)
        → (epoch == u.epoch) ≡ false → accept way epoch u ≡ drops Stale u }
    ensures failures { (way : Way (Message Token) Token Pdu) (u : UeNode)
        → is_connected u.state ≡ false → fail way u ≡ puts (no NoRadio) u }
    ensures large { (way : Way (Message Token) Token Pdu) (u : UeNode) (bearer : BearerId)
        (c : UeBearer) (packet : List ℕ) → find bearer_cmp u.bearers bearer ≡ Some c
        → nat_lt largest_packet (length packet) ≡ true
        → offer way bearer packet u ≡ puts (no Size) u }
    ensures full { (way : Way (Message Token) Token Pdu) (u : UeNode) (bearer : BearerId)
        (c : UeBearer) (packet : List ℕ) → find bearer_cmp u.bearers bearer ≡ Some c
        → nat_lt largest_packet (length packet) ≡ false
        → nat_le u.plan.quota (used_uplink way c) ≡ true
        → offer way bearer packet u ≡ puts (no Quota) u }
    ensures unknown { (way : Way (Message Token) Token Pdu) (u : UeNode) (bearer : BearerId)
        → find bearer_cmp u.bearers bearer ≡ None → (content : Content)
        → take way bearer content u ≡ drops NoContext u }
    ensures unknown_confirmed { (way : Way (Message Token) Token Pdu) (u : UeNode) (bearer : BearerId)
        → find bearer_cmp u.bearers bearer ≡ None → (content : Content)
        → confirm way bearer content u ≡ drops NoContext u }
    ensures unknown_offered { (way : Way (Message Token) Token Pdu) (u : UeNode) (bearer : BearerId)
        → find bearer_cmp u.bearers bearer ≡ None → (packet : List ℕ)
        → offer way bearer packet u ≡ drops NoContext u }
    ensures tunnels { (way : Way (Message Token) Token Pdu) (u : UeNode) (teid : ℕ) (item : Taken Pdu)
        → ue_acts way u (packet_input teid item) ≡ drops Unexpected u }
    ensures own { (way : Way (Message Token) Token Pdu) (u : UeNode) (ue : UeId) (bearer : BearerId)
        (pdu : Pdu) (content : Content)
        → ue_acts way u (radio_input ue bearer Ul pdu content) ≡ drops Unexpected u }
    ensures its_own { (way : Way (Message Token) Token Pdu) (u : UeNode) (ue : UeId)
        (bearer : BearerId) (pdu : Pdu) (content : Content)
        → ue_acts way u (confirm_input ue bearer Dl pdu content) ≡ drops Unexpected u }
{}

/// The terminal takes packets alike on the way over one DU and in the chain of contexts: whatever orders the chain has, its way
/// has, with those by which the terminal takes a packet or loses its radio, the same receiver and the same packets delivered.
pub fn both_models_receive_alike()
    ensures alike { (d : DownModel) (p : Path) → IsAlike d p → (os : List down.ModelStep)
        → IsAlike (down.run d os) (path.run p (steps_for p os)) }
{}

//! Laws of the rows of the terminal: what each does to one bearer is what its orders do, to the bearer's model up and to its
//! model down. Each function does nothing: its contract is the law.

ghost use Rattle.std.specs.Prelude.{◌≡◌, ◌≢◌, ◌<◌, ◌==◌, ℕ, ◌+◌, Bool, true, false, ◌&&◌, nat_lt, nat_le, length, List, [], ◌∷◌, ◌++◌, Some, None};
ghost use Rattle.gnb_types.specs.declared.names.NodeId.{NodeId};
ghost use Rattle.gnb_types.specs.declared.names.BearerId.{BearerId};
ghost use Rattle.gnb_types.specs.declared.names.SnBits.{SnBits};
ghost use Rattle.gnb_types.specs.declared.reasons.DropReason.TheVariants.{Duplicate};
ghost use Rattle.gnb_types.specs.declared.reasons.HeldReason.TheVariants.{Ahead};
ghost use Rattle.message_types.specs.declared.rrc.Token.{Token};
ghost use Rattle.pdcp_defs.specs.Senders.{is_reported, confirmed_to, confirmed_by};
ghost use Rattle.pdcp_defs.specs.Receivers.{is_duplicate, is_ahead, stored, deliver};
ghost use Rattle.unit_defs.specs.declared.UeState.TheVariants as states;
ghost use Rattle.unit_defs.specs.Ways.{Message, Pdu, packet_content, report_content, dropped, held, Way};
ghost use Rattle.unit_defs.specs.Ue.{UeNode, largest_packet, used_uplink, is_connected, is_accessing, may_obey, may_return, arrived, returned, said, offer, take, confirm, arrive, accept, obey, fail, come_back, says_it};
ghost use Rattle.bearer_defs.specs.chain_defs.Models.{Model as DownModel};
ghost use Rattle.bearer_defs.specs.chain_defs.Orders as down;
ghost use Rattle.bearer_defs.specs.chain_defs.Assumptions as down_assumptions;
ghost use Rattle.bearer_defs.specs.uplink_defs.Models.{Model};
ghost use Rattle.bearer_defs.specs.uplink_defs.Orders.{offers, connects, leaves, arrives, acknowledges, reports, run};
ghost use Rattle.bearer_defs.specs.uplink_defs.Assumptions.{AreKept};
ghost use Rattle.proof_node_orders.specs.terminal_rows.Shown.{IsSeen, orders_of, packets_of, numbered_all, numbering, Gives, Shows, Does, connections, with_all_numbered, delivered_to};

/// An offered packet waits, and what waits is numbered and sent while the terminal is connected. Nothing is assumed for this.
pub fn offers_are_orders()
    ensures asked { (u : UeNode) (s : Model) → s.connected ≡ is_connected u.state → (packet : List ℕ)
        → AreKept s (offers packet
        ∷ numbering u (record s.terminal { waiting = s.terminal.waiting ++ packet ∷ [] })) }
    ensures does { (way : Way (Message Token) Token Pdu) (u : UeNode) (bearer : BearerId) (s : Model)
        (d : DownModel) → IsSeen u bearer s d → (packet : List ℕ)
        → nat_lt largest_packet (length packet) ≡ false
        → nat_le u.plan.quota (used_uplink way s.terminal) ≡ false
        → Does way u bearer d (record s { offered = s.offered + 1 })
        (run s (offers packet
        ∷ numbering u (record s.terminal { waiting = s.terminal.waiting ++ packet ∷ [] })))
        (offer way bearer packet u) }
{}

/// A status report confirms what it says, which is assumed to have been carried up; and then what waits is numbered.
pub fn reports_are_orders()
    ensures asked { (u : UeNode) (s : Model) → s.connected ≡ is_connected u.state → (fmc : ℕ)
        (bits : List Bool) → ((i : ℕ) → is_reported fmc bits i ≡ true → i < s.reached)
        → AreKept s (reports fmc bits
        ∷ numbering u (record s.terminal { sender = confirmed_by s.terminal.sender fmc bits })) }
    ensures does { (way : Way (Message Token) Token Pdu) (u : UeNode) (bearer : BearerId) (s : Model)
        (d : DownModel) → IsSeen u bearer s d → (fmc : ℕ) (bits : List Bool)
        → Does way u bearer d s
        (run s (reports fmc bits
        ∷ numbering u (record s.terminal { sender = confirmed_by s.terminal.sender fmc bits })))
        (take way bearer (report_content fmc bits) u) }
{}

/// What was confirmed on the radio is the first that was carried and that the terminal doesn't know of; then what waits is
/// numbered. A PDU without a COUNT, and a report of its own, confirm nothing.
pub fn confirmations_are_orders()
    ensures asked { (u : UeNode) (s : Model) → s.connected ≡ is_connected u.state → (count : ℕ)
        (rest : List ℕ) → s.carried ≡ count ∷ rest
        → AreKept s (acknowledges count rest
        ∷ numbering u (record s.terminal { sender = confirmed_to s.terminal.sender count })) }
    ensures does { (way : Way (Message Token) Token Pdu) (u : UeNode) (bearer : BearerId) (s : Model)
        (d : DownModel) → IsSeen u bearer s d → (count : ℕ) (packet rest : List ℕ)
        → Does way u bearer d (record s { carried = rest })
        (run s (acknowledges count rest
        ∷ numbering u (record s.terminal { sender = confirmed_to s.terminal.sender count })))
        (confirm way bearer (packet_content (Some count) packet) u) }
    ensures without_count_asked { (u : UeNode) (s : Model) → s.connected ≡ is_connected u.state
        → AreKept s (numbering u s.terminal) }
    ensures without_count { (way : Way (Message Token) Token Pdu) (u : UeNode) (bearer : BearerId)
        (s : Model) (d : DownModel) → IsSeen u bearer s d → (packet : List ℕ)
        → Does way u bearer d s (run s (numbering u s.terminal))
        (confirm way bearer (packet_content None packet) u) }
    ensures reports { (way : Way (Message Token) Token Pdu) (u : UeNode) (bearer : BearerId) (s : Model)
        (d : DownModel) → IsSeen u bearer s d → (fmc : ℕ) (bits : List Bool)
        → Does way u bearer d s s (confirm way bearer (report_content fmc bits) u) }
{}

/// A terminal that arrives says so, and each bearer connects: a status report, all that nothing confirmed, and what is
/// numbered then. Its station is another context or the same one; that this may be is assumed. A return that was accepted
/// connects likewise, on the radio that it asked for.
pub fn connections_are_orders()
    ensures asked { (u : UeNode) (s : Model) → AreKept s (connects ∷ orders_of u s.terminal) }
    ensures became { (u : UeNode) (s : Model) → run s (connects ∷ orders_of u s.terminal) ≡ record s {
      connected = true;
      terminal = numbered_all u s.terminal;
      air = s.terminal.sender.unconfirmed ++ packets_of u s.terminal;
      carried = [];
    } }
    ensures gives { (way : Way (Message Token) Token Pdu) (u : UeNode) → is_accessing u.state ≡ true
        → let now = arrived way u in
        Gives (said way now now.token now.home ++ connections way now) (with_all_numbered way now)
        (arrive way u) }
    ensures elsewhere { (way : Way (Message Token) Token Pdu) (u : UeNode) (bearer : BearerId)
        (s : Model) (d : DownModel) → IsSeen u bearer s d → is_accessing u.state ≡ true → (x : ℕ)
        → let now = arrived way u in
        Shows (said way now now.token now.home ++ connections way now) bearer
        (run s (arrives x ∷ connects ∷ orders_of u s.terminal)) (down.run d (down.arrives x ∷ []))
        (arrive way u) }
    ensures at_home { (way : Way (Message Token) Token Pdu) (u : UeNode) (bearer : BearerId)
        (s : Model) (d : DownModel) → IsSeen u bearer s d → is_accessing u.state ≡ true
        → let now = arrived way u in
        Shows (said way now now.token now.home ++ connections way now) bearer
        (run s (connects ∷ orders_of u s.terminal)) (down.run d (down.fails ∷ [])) (arrive way u) }
    ensures accepted { (way : Way (Message Token) Token Pdu) (u : UeNode) (bearer : BearerId)
        (s : Model) (d : DownModel) → IsSeen u bearer s d → (epoch : ℕ) → (epoch == u.epoch) ≡ true
        → u.state ≡ states.Returning
        → Shows (connections way (record u { token = None; state = states.Connected })) bearer
        (run s (connects ∷ orders_of u s.terminal)) d (accept way epoch u) }
{}

/// A command and a lost radio end the radio up. A request for re-establishment begins another radio down, on which the
/// terminal connects once it is accepted. What it says again, and that it was accepted otherwise, change no model.
pub fn radios_are_left()
    ensures commands { (way : Way (Message Token) Token Pdu) (u : UeNode) (bearer : BearerId)
        (s : Model) (d : DownModel) → IsSeen u bearer s d → (epoch : ℕ) (goal : NodeId)
        → (may_obey way u.state && epoch == u.epoch + 1) ≡ true
        → Shows [] bearer (run s (leaves ∷ [])) d (obey way epoch goal u) }
    ensures failures { (way : Way (Message Token) Token Pdu) (u : UeNode) (bearer : BearerId)
        (s : Model) (d : DownModel) → IsSeen u bearer s d → is_connected u.state ≡ true
        → Shows [] bearer (run s (leaves ∷ [])) d (fail way u) }
    ensures returns { (way : Way (Message Token) Token Pdu) (u : UeNode) (bearer : BearerId)
        (s : Model) (d : DownModel) → IsSeen u bearer s d → (home : NodeId) → u.home ≡ Some home
        → may_return u.state ≡ true → let now = returned way u in
        Shows (said way now now.token now.home) bearer s (down.run d (down.fails ∷ []))
        (come_back way u) }
    ensures ticks { (way : Way (Message Token) Token Pdu) (u : UeNode) (bearer : BearerId) (s : Model)
        (d : DownModel) → IsSeen u bearer s d
        → Shows (said way u u.token u.home) bearer s d (says_it way u) }
    ensures accepted { (way : Way (Message Token) Token Pdu) (u : UeNode) (bearer : BearerId)
        (s : Model) (d : DownModel) → IsSeen u bearer s d → (epoch : ℕ) → (epoch == u.epoch) ≡ true
        → u.state ≢ states.Returning → Shows [] bearer s d (accept way epoch u) }
{}

/// A packet of the downlink is taken from the radio, which it is assumed to stand first on: a new one is stored, and what the
/// receiver hands up is delivered; a duplicate is dropped. One that there is no room for is held, and no order comes of it.
pub fn packets_are_taken()
    ensures asked { (sn : SnBits) (quota : ℕ) (d : DownModel) (count : ℕ) (packet : List ℕ)
        (rest : List (ℕ × List ℕ)) → d.air ≡ (count, packet) ∷ rest
        → down_assumptions.AreKept sn quota d (down.carries count packet rest ∷ []) }
    ensures became { (d : DownModel) (count : ℕ) (packet : List ℕ) (rest : List (ℕ × List ℕ))
        → is_duplicate d.terminal count ≡ false → let now = deliver (stored d.terminal count packet) in
        down.run d (down.carries count packet rest ∷ [])
        ≡ record d { air = rest; terminal = now.after; delivered = d.delivered ++ now.packets } }
    ensures new_ones { (way : Way (Message Token) Token Pdu) (u : UeNode) (bearer : BearerId)
        (s : Model) (d : DownModel) → IsSeen u bearer s d → (count : ℕ) (packet : List ℕ)
        (rest : List (ℕ × List ℕ)) → is_duplicate d.terminal count ≡ false
        → is_ahead u.plan.quota d.terminal count ≡ false
        → Shows (delivered_to way u bearer (deliver (stored d.terminal count packet)).packets) bearer s
        (down.run d (down.carries count packet rest ∷ []))
        (take way bearer (packet_content (Some count) packet) u) }
    ensures duplicates { (way : Way (Message Token) Token Pdu) (u : UeNode) (bearer : BearerId)
        (s : Model) (d : DownModel) → IsSeen u bearer s d → (count : ℕ) (packet : List ℕ)
        (rest : List (ℕ × List ℕ)) → is_duplicate d.terminal count ≡ true
        → Shows (dropped Duplicate ∷ []) bearer s (down.run d (down.carries count packet rest ∷ []))
        (take way bearer (packet_content (Some count) packet) u) }
    ensures without_room { (way : Way (Message Token) Token Pdu) (u : UeNode) (bearer : BearerId)
        (s : Model) (d : DownModel) → IsSeen u bearer s d → (count : ℕ) (packet : List ℕ)
        → is_duplicate d.terminal count ≡ false → is_ahead u.plan.quota d.terminal count ≡ true
        → Shows (held Ahead ∷ []) bearer s d
        (take way bearer (packet_content (Some count) packet) u) }
{}

//! Laws of the rows of a CU-UP on one bearer: each does what its orders do. Each function does nothing: its contract is the
//! law.

ghost use Rattle.std.specs.Prelude.{◌≡◌, ℕ, Bool, true, false, List, [], ◌∷◌, map, Some, None};
ghost use Rattle.gnb_types.specs.declared.names.NodeId.{NodeId};
ghost use Rattle.message_types.specs.declared.rrc.Token.{Token};
ghost use Rattle.gnb_types.specs.declared.names.SnBits.{SnBits};
ghost use Rattle.pdcp_defs.specs.Senders.{Sender, may_restore, confirmed_to, confirmed_by};
ghost use Rattle.unit_defs.specs.Ways.{Message, Pdu, packet_pdu, Way};
ghost use Rattle.unit_defs.specs.CuUpRecords.{CuUpBearer, SourceHop, CuUpScope};
ghost use Rattle.unit_defs.specs.CuUpBearers.{frozen_to, has_downlink, number_waiting, number_each, sent_again};
ghost use Rattle.unit_defs.specs.CuUpItems.{took_fresh, took_numbered, took_report, took_delivery_status, n3_ended};
ghost use Rattle.bearer_defs.specs.chain_defs.Models.{numbered, fresh, end_marker, Model};
ghost use Rattle.bearer_defs.specs.chain_defs.Orders.{forwards, frozen, waits, waits_unless, holds, takes_unless, run};
ghost use Rattle.bearer_defs.specs.chain_defs.Assumptions.{AreKept};
ghost use Rattle.proof_cu_up_orders.specs.chain_rows.Shown.{Gives, numbers_all, still_waits, numbered_pdus, number_orders, numbered_packets, Became};

/// A freeze forwards all that is unconfirmed and then all that waits, and freezes the bearer.
pub fn freeze_forwards_all()
    ensures does { (way : Way (Message Token) Token Pdu) (at : CuUpScope) (peer : NodeId) (down up : ℕ)
        (b : CuUpBearer) → Gives way at.sn (forwards b) []
        (frozen b (record { peer = peer; down = down; up = up; up_ended = false }))
        (frozen_to way at peer down up b) }
{}

/// At a frozen context what comes goes on, as it came, and is kept unless the context was released.
pub fn what_comes_goes_on()
    ensures fresh_ones { (way : Way (Message Token) Token Pdu) (at : CuUpScope) (p : List ℕ) (b : CuUpBearer)
        (hop : SourceHop) → b.hop ≡ Some hop → at.flags.frozen ≡ true
        → Gives way at.sn (fresh p ∷ []) [] (waits_unless at.flags.released b p)
        (took_fresh way at p b) }
    ensures numbered_ones { (way : Way (Message Token) Token Pdu) (at : CuUpScope) (count : ℕ)
        (p : List ℕ) (b : CuUpBearer) (hop : SourceHop) → b.hop ≡ Some hop → at.flags.frozen ≡ true
        → (at.flags.released ≡ false → may_restore at.sn at.quota b.sender count ≡ true)
        → Gives way at.sn (numbered count p ∷ []) [] (takes_unless at.flags.released b count p)
        (took_numbered way at (Some count) p b) }
    ensures end_of_n3 { (way : Way (Message Token) Token Pdu) (at : CuUpScope) (b : CuUpBearer)
        (hop : SourceHop) (teid : ℕ) → b.hop ≡ Some hop → b.n3 ≡ Some teid
        → Gives way at.sn (end_marker ∷ []) [] (record b { n3 = None }) (n3_ended way at b b.hop) }
{}

/// At a context that serves, what comes without a COUNT waits, and what waits is numbered while there is room.
pub fn what_waits_is_numbered()
    ensures waits_first { (way : Way (Message Token) Token Pdu) (at : CuUpScope) (p : List ℕ)
        (b : CuUpBearer) → at.flags.frozen ≡ false → at.flags.released ≡ false
        → took_fresh way at p b ≡ number_waiting way at (waits b p) }
    ensures numbered_next { (way : Way (Message Token) Token Pdu) (at : CuUpScope)
        (ps : List (List ℕ)) (b : CuUpBearer) → has_downlink b.downlink ≡ true
        → Gives way at.sn [] (numbered_pdus at.sn at.quota ps b.sender)
        (record b {
          sender = numbers_all at.sn at.quota ps b.sender;
          waiting = still_waits at.sn at.quota b.waiting ps b.sender;
        })
        (number_each way at ps b) }
{}

/// The numbering of what waits is a list of orders: what they ask of the unit is so, and after them the bearer, and what went
/// to the radio, are those of the row.
pub fn numbering_is_its_orders()
    ensures asked { (sn : SnBits) (quota x : ℕ) (s : Model) → (s.members x).is_there ≡ true
        → (s.members x).flags.may_serve ≡ true → (s.members x).flags.frozen ≡ false
        → AreKept sn quota s
        (number_orders sn quota x (s.members x).bearer.waiting (s.members x).bearer.sender) }
    ensures became { (sn : SnBits) (quota x : ℕ) (s : Model) → let b = (s.members x).bearer in
        Became s (run s (number_orders sn quota x b.waiting b.sender)) x
        (record (s.members x) {
          bearer = record b {
            sender = numbers_all sn quota b.waiting b.sender;
            waiting = still_waits sn quota b.waiting b.waiting b.sender;
          };
        })
        (numbered_packets sn quota b.waiting b.sender) }
    ensures pdus { (sn : SnBits) (quota : ℕ) (ps : List (List ℕ)) (q : Sender (List ℕ))
        → numbered_pdus sn quota ps q
        ≡ map (λ e. packet_pdu e.0 e.1) (numbered_packets sn quota ps q) }
{}

/// A forwarded packet with its COUNT is sent at a context that serves; and all that is to be sent again is, in order.
pub fn packets_are_sent()
    ensures numbered_ones { (way : Way (Message Token) Token Pdu) (at : CuUpScope) (count : ℕ)
        (p : List ℕ) (b : CuUpBearer) → has_downlink b.downlink ≡ true → at.flags.frozen ≡ false
        → at.flags.released ≡ false → may_restore at.sn at.quota b.sender count ≡ true
        → Gives way at.sn [] (packet_pdu count p ∷ []) (holds b count p)
        (took_numbered way at (Some count) p b) }
    ensures again { (way : Way (Message Token) Token Pdu) (at : CuUpScope) (es : List (ℕ × List ℕ))
        (b : CuUpBearer) → has_downlink b.downlink ≡ true
        → Gives way at.sn [] (map (λ e. packet_pdu e.0 e.1) es) b (sent_again way at es b) }
{}

/// What is confirmed is no longer held, and makes room for what waits.
pub fn confirmations_make_room()
    ensures reports { (way : Way (Message Token) Token Pdu) (at : CuUpScope) (fmc : ℕ) (bits : List Bool)
        (b : CuUpBearer) → took_report way at fmc bits b
        ≡ number_waiting way at (record b { sender = confirmed_by b.sender fmc bits }) }
    ensures statuses { (way : Way (Message Token) Token Pdu) (at : CuUpScope) (count : ℕ) (b : CuUpBearer)
        → took_delivery_status way at [] (Some count) b
        ≡ number_waiting way at (record b { sender = confirmed_to b.sender count }) }
{}

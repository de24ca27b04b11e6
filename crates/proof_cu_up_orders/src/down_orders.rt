//! Laws of the orders to a bearer of a CU-UP: each is orders to the downlink of the bearer in the run. Each function does nothing:
//! its contract is the law.

ghost use Rattle.std.specs.Prelude.{◌≡◌, ◌≢◌, ℕ, Bool, false, List, [], ◌∷◌, Some};
ghost use Rattle.bearer_defs.specs.chain_defs.Orders.{run};
ghost use Rattle.bearer_defs.specs.chain_defs.Orders as chain;
ghost use Rattle.bearer_defs.specs.chain_defs.Models.{Item, Model};
ghost use Rattle.proof_cu_up_orders.specs.context_orders.Orders.{CuUpModel, ContextStep, begun, done, freezes, makes, takes};
ghost use Rattle.proof_cu_up_orders.specs.down_orders.Down.{IsDown, item_orders, IsFit, Shows, Stands, control_orders, IsAsked, IsOfUplink, new_model, ShowsFrozen};
ghost use Rattle.gnb_types.specs.declared.names.NodeId.{NodeId};
ghost use Rattle.gnb_types.specs.declared.names.BearerId.{BearerId};
ghost use Rattle.gnb_types.specs.declared.names.SnBits.{SnBits};
ghost use Rattle.gnb_types.specs.declared.names.UeId.{UeId};
ghost use Rattle.unit_defs.specs.CuUpRecords.{TunnelKind};
ghost use Rattle.unit_defs.specs.Ways.{Taken, Way};

/// An item that a bearer takes is a list of orders to its downlink: where the run's model has the bearer, it has it after them as
/// the row leaves it; what the row puts on the target's tunnel is what they pass on, and the packets in its frames are what they
/// send to the radio. An item of the uplink alone is none.
pub fn items_are_orders<M, C, P>()
    ensures { (way : Way M C P) (s : Model) (x : ℕ) (p : CuUpModel) → IsDown (s.members x) p → Stands p
        → (kind : TunnelKind) (teid : ℕ) (item : Taken P) (rest : List Item) → IsFit p kind item
        → Shows way s (run s (item_orders x p rest kind item)) x (done way (takes kind teid item) p) }
{}

/// So are a switch, an SN status, a resume, a release, further uplinks and a poll: a switch begins the downlink, with all that
/// nothing confirmed; so does an SN status where the terminal is there; a resume sends what is assumed.
pub fn control_is_orders<M, C, P>()
    ensures { (way : Way M C P) (s : Model) (x : ℕ) (p : CuUpModel) → IsDown (s.members x) p → (epoch : ℕ)
        (order : ContextStep P) → IsAsked p order
        → Shows way s (run s (control_orders x epoch p order)) x (done way order p) }
{}

/// A freeze is an order: all that is held goes to the context that the hop leads to, another one than this, and the next
/// COUNT is what this one is promised.
pub fn a_freeze_is_an_order<M, C, P>()
    ensures { (way : Way M C P) (s : Model) (x : ℕ) (p : CuUpModel) → IsDown (s.members x) p
        → (to : ℕ) (peer : NodeId) (down up : ℕ) → to ≢ x
        → ShowsFrozen s
        (run s (chain.freezes x to (record { peer = peer; down = down; up = up; up_ended = false }) ∷ []))
        x to p.bearer.sender.next (done way (freezes peer down up) p) }
{}

/// An item that the uplink alone says something of leaves the downlink as it was: nothing goes to the target's tunnel down, nor to
/// the radio. A context that is made is the member that its order makes.
pub fn other_items_leave_it<M, C, P>()
    ensures items { (way : Way M C P) (s : Model) (x : ℕ) (p : CuUpModel) → IsDown (s.members x) p
        → (kind : TunnelKind) (teid : ℕ) (item : Taken P) → IsOfUplink kind item
        → Shows way s s x (done way (takes kind teid item) p) }
    ensures made { (s : Model) (x : ℕ) (ue : UeId) (bearer : BearerId) (instance : ℕ) (sn : SnBits)
        (quota : ℕ) (target : Bool) (teid : ℕ)
        → (begun {P = P} ue bearer (makes instance sn quota target teid)
        ≡ Some (new_model ue bearer instance sn quota target teid))
        × IsDown ((run s (chain.makes x target teid ∷ [])).members x)
        (new_model ue bearer instance sn quota target teid) }
{}

//! Laws of the orders to a bearer of a CU-UP: each is orders to the uplink of the bearer in the run. Each function does nothing:
//! its contract is the law.

ghost use Rattle.std.specs.Prelude.{◌≡◌, ◌≢◌, ℕ, true, false, List, [], ◌∷◌, Some};
ghost use Rattle.proof_cu_up_orders.specs.context_orders.Orders.{CuUpModel, ContextStep, begun, done, freezes, makes, polls, takes};
ghost use Rattle.proof_cu_up_orders.specs.orders.Up.{IsUp, item_orders, IsFit, Shows, Stands, control_orders, IsAsked, IsOfDownlink, new_model, ShowsFrozen};
ghost use Rattle.gnb_types.specs.declared.names.NodeId.{NodeId};
ghost use Rattle.gnb_types.specs.declared.names.BearerId.{BearerId};
ghost use Rattle.gnb_types.specs.declared.names.SnBits.{SnBits};
ghost use Rattle.gnb_types.specs.declared.names.UeId.{UeId};
ghost use Rattle.unit_defs.specs.CuUpRecords.{TunnelKind};
ghost use Rattle.unit_defs.specs.Ways.{Taken, Way};
ghost use Rattle.bearer_defs.specs.uplink_defs.Orders.{run};
ghost use Rattle.bearer_defs.specs.uplink_defs.Orders as orders;
ghost use Rattle.bearer_defs.specs.uplink_defs.Models.{Item, Model};

/// An item that a bearer takes from an uplink tunnel, or from the source's, is an order to its uplink: where the run's model has
/// the bearer, it has it after this as the row leaves it; what the row puts on the target's tunnel up is what the order passes
/// on, an End Marker among it, and what it hands up is what the order delivers.
pub fn items_are_orders<M, C, P>()
    ensures { (way : Way M C P) (s : Model) (x : ℕ) (p : CuUpModel) → IsUp (s.members x) p → Stands p
        → (kind : TunnelKind) (teid : ℕ) (item : Taken P) (rest : List Item) → IsFit p kind item
        → Shows s (run s (item_orders x rest kind teid item)) x (done way (takes kind teid item) p) }
{}

/// So are a switch, a resume and an SN status, which hand up what the receiver has where the terminal is there; a release, and
/// further uplinks.
pub fn control_is_orders<M, C, P>()
    ensures { (way : Way M C P) (s : Model) (x : ℕ) (p : CuUpModel) → IsUp (s.members x) p
        → (order : ContextStep P) → IsAsked p order
        → Shows s (run s (control_orders x p order)) x (done way order p) }
{}

/// A freeze is an order: all that is stored goes to the context that the hop leads to, another one than this, and where this
/// one's receiver stands is what it is promised.
pub fn a_freeze_is_an_order<M, C, P>()
    ensures { (way : Way M C P) (s : Model) (x : ℕ) (p : CuUpModel) → IsUp (s.members x) p
        → (to : ℕ) (peer : NodeId) (down up : ℕ) → to ≢ x
        → ShowsFrozen s
        (run s (orders.freezes x to (record { peer = peer; down = down; up = up; up_ended = false }) ∷ []))
        x to p.bearer.receiver.deliv (done way (freezes peer down up) p) }
{}

/// An item that the downlink alone says something of leaves the uplink as it was, and so does a poll: nothing goes to the target's
/// tunnel up, and nothing is handed up. A target that is made is the member that its order makes.
pub fn other_items_leave_it<M, C, P>()
    ensures items { (way : Way M C P) (s : Model) (x : ℕ) (p : CuUpModel) → IsUp (s.members x) p
        → (kind : TunnelKind) (teid : ℕ) (item : Taken P) → IsOfDownlink kind item
        → Shows s s x (done way (takes kind teid item) p) }
    ensures asked_frames { (way : Way M C P) (s : Model) (x : ℕ) (p : CuUpModel) → IsUp (s.members x) p
        → Shows s s x (done way polls p) }
    ensures made { (s : Model) (x : ℕ) (ue : UeId) (bearer : BearerId) (instance : ℕ) (sn : SnBits)
        (quota teid : ℕ)
        → (begun {P = P} ue bearer (makes instance sn quota true teid)
        ≡ Some (new_model ue bearer instance sn quota true teid))
        × IsUp ((run s (orders.makes x teid ∷ [])).members x)
        (new_model ue bearer instance sn quota true teid) }
{}

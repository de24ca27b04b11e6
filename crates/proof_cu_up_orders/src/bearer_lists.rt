//! Laws of the orders to a bearer of a CU-UP: on which tunnels their rows put, and which lists of the bearer's model they move. Each
//! function does nothing: its contract is the law.

ghost use Rattle.proof_cu_up_orders.specs.bearer_lists.Down.{MovesDown};
ghost use Rattle.proof_cu_up_orders.specs.bearer_lists.Puts.{PutsOwn};
ghost use Rattle.proof_cu_up_orders.specs.bearer_lists.Up.{MovesUp};
ghost use Rattle.proof_cu_up_orders.specs.context_orders.Orders.{done, ContextStep, CuUpModel};
ghost use Rattle.unit_defs.specs.Ways.{Way};

/// Whatever is asked of a bearer, what its row puts on tunnels is of this bearer: frames for its DU, and all else on the two tunnels
/// of its hop, each in its direction. And its hop leads there then: a freeze gives it one, a switch and a resume end it, and nothing
/// else changes where it leads.
pub fn rows_put_on_the_hop<M, C, P>()
    ensures { (way : Way M C P) (p : CuUpModel) (order : ContextStep P) → PutsOwn p order (done way order p) }
{}

/// Where the part of a downlink has the bearer, an order to it leaves what stands on the tunnels that end at its context as it was,
/// but for the one that an item is taken from, where what is named is left; what the row puts for the next context comes to the end
/// of the forwarding tunnel of the context that the hop leads to; and no other list changes.
pub fn orders_move_lists_down<M, C, P>()
    ensures { (way : Way M C P) → MovesDown way }
{}

/// The same of its uplink.
pub fn orders_move_lists_up<M, C, P>()
    ensures { (way : Way M C P) → MovesUp way }
{}

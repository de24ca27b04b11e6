//! Rows of a CU-CP, by procedure (TS 38.401, 8.9; TS 38.423, 8.2): a handover at its target, and what follows an arrival or a return. Each
//! function is named as its row in `unit_defs`, and gives what that row is.

mod bearers;
mod completing;
mod handover_target;
mod returning;
mod source_says;
mod switching;

pub use bearers::{name_bearers, statuses_name_bearers};
pub use completing::{completes, completes_again};
pub use handover_target::{
    OfferTunnels, Offered, offer, offer_context, offer_has_tunnels, offer_is_declined,
    offer_is_placed,
};
pub use returning::{arrives, arrives_again, is_between_dus, returns};
pub use source_says::{status, xn_cancelled};
pub use switching::{is_switched, path_is_switched, place_is_renewed};

//! Rows of a CU-CP, by procedure (TS 38.401, 8.1, 8.2.1, 8.6; TS 38.423, 8.2): an attach, a handover at its source, and releases. Each function
//! is named as its row in `unit_defs`, and gives what that row is.

mod attaching;
mod handover_source;
mod moving;
mod releasing;

pub use attaching::{attach, attach_fails, attach_has_tunnels, attach_is_placed};
pub use handover_source::{
    cancel, command, handover, handover_expires, handover_is_acknowledged, handover_is_declined,
    handover_is_frozen, handover_is_not_frozen, is_same_gnb,
};
pub use moving::{move_begins, move_has_uplinks, move_is_placed};
pub use releasing::{is_between_gnbs, is_serving, release, xn_released};

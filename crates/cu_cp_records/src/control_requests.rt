//! The requests that a CU-CP makes of the units of its gNB, of the other CU-CP and of the core (TS 38.473; TS 37.483; TS 38.423), and the
//! confirmation of one on Xn. Each is named as what it says in `unit_defs`.

mod modifying;
mod releasing;
mod setting_up;

pub use modifying::{freeze_action, resume_action, status_action, switch_action, uplinks_action};
pub use releasing::{cu_up_release, du_release, source_release, transport_confirm, xn_cancel};
pub use setting_up::{bearer_setup, du_modify, du_setup, path_switch};

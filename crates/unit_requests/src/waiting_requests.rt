//! What waits of a unit's requests and isn't wanted any more: no attempt awaits the answers of a terminal whose attempt ended, and the
//! release after a setup that failed isn't needed (TS 37.483, 8.3.1 and 8.3.3).

mod forgetting;
mod giving_up;

pub use forgetting::forget;
pub use giving_up::give_up_release;

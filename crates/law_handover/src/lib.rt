//! Laws of the states of a handover: each call says what its row of the procedure tables says, in order, awaits the same answers, and goes
//! to the state to which the row goes. Each function does nothing: its contract is the law.
#![tactic(auto)]

mod after;
mod before;
mod no_return;
mod target;

pub use after::{a_return_goes_by_its_row, a_switch_goes_by_its_rows, an_arrival_goes_by_its_row};
pub use before::{
    a_cancel_goes_by_its_row, a_command_goes_by_its_row, a_handover_goes_by_its_rows,
    a_move_goes_by_its_rows, an_attach_goes_by_its_rows,
};
pub use no_return::{
    nothing_else_brings_it_back, nothing_else_brings_it_back_to_its_du,
    only_a_return_brings_it_back, only_a_return_brings_it_back_to_its_du,
};
pub use target::an_offer_goes_by_its_rows;

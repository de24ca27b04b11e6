//! Proof steps: a run, step by step, does to one bearer's tunnels and contexts what orders do to the bearer's model.
//!
//! - `run_terminals`: A terminal in a run takes a list of inputs, which are orders of each of its bearers.
//! - `run_unit_inputs`: CU-UPs and DUs in a run take lists of inputs, which are orders of each bearer.
//! - `run_bearers`: A run is one list of inputs, and for each bearer a list of orders of its contexts.
//! - `refinement_facts`: The tunnels of a run and the lists of a bearer's model agree: whose a tunnel is, what a step puts there, and which
//!   order takes from it.
//! - `cu_up_step`: The tunnels of a run stay the lists of the bearer's model, step by step.
//! - `f1u_frames`: The frames on a DU's tunnel are those that stood there and those that the orders of a CU-UP's step send.
//! - `other_contexts`: A context that sends to a DU stays as it is beside orders to another context, and beside the radio.
//! - `du_puts`: What a DU puts for a bearer is orders of the uplink's model.
//! - `core_step`: An offered packet, and a message to the core, are orders of the downlink's model.
//! - `cu_up_opens`: A CU-UP's step opens empty tunnels, and the run's tunnels stay the model's lists.
//! - `uplink_radio`: The radio up between a terminal and a DU stays the model's list.
//! - `downlink_radio`: What waits on the radio down is for the present radio and has no gap; a terminal takes what stands first.
//! - `du_radios`: A DU puts on a bearer's radio down what the frame carries that it takes, and keeps that radio without a gap.
//! - `ue_view`: The orders of a CU-UP, of the core, and of End Markers leave what a terminal shows of a bearer.
//! - `runs`: A whole run keeps its tunnels the model's lists, and the model runs one list of orders.
//! - `frame_cp_and_ue`: A step of a CU-CP or of a terminal leaves a bearer's contexts and tunnels.
//! - `initial`: A terminal that is set up without messages starts in refinement of its bearer's model.
//! - `frame_other_units`: A step of a CU-CP, a CU-UP or a DU changes no terminal, and puts nothing on a radio up.
//! - `frame_downlink_radio`: A step of a CU-CP or a CU-UP, but the terminal's release, leaves what waits on its radio down.
//! - `carried_was_received`: What was carried on a terminal's radio down, and isn't confirmed to the DU, was received.
//! - `ue_step`: A terminal's own step is the orders of its input.
//! - `ue_receives`: The same where frames of F1-U may have been lost.
//! - `serving_du`: A step by which a DU takes what stands next on the radio up is an order of the model.
//! - `du_without_uplink`: A step of a DU assumes nothing, where it isn't given a PDU of the bearer's radio up.
//! - `frame_lost_and_foreign`: Messages that land nowhere, losses, and octets from outside leave a bearer's contexts.
//! - `frame_set_up`: The set-up of a terminal without messages leaves the bearers of others.
#![tactic(auto)]

pub mod carried_was_received;
pub mod core_step;
pub mod cu_up_opens;
pub mod cu_up_step;
pub mod downlink_radio;
pub mod du_puts;
pub mod du_radios;
pub mod du_without_uplink;
pub mod f1u_frames;
pub mod frame_cp_and_ue;
pub mod frame_downlink_radio;
pub mod frame_lost_and_foreign;
pub mod frame_other_units;
pub mod frame_set_up;
pub mod initial;
pub mod other_contexts;
pub mod refinement_facts;
pub mod run_bearers;
pub mod run_terminals;
pub mod run_unit_inputs;
pub mod runs;
pub mod serving_du;
pub mod ue_receives;
pub mod ue_step;
pub mod ue_view;
pub mod uplink_radio;

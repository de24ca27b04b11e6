//! The headline: over any steps of a run in which control keeps what is assumed of it, a bearer delivers in order, down and up, over
//! handovers and whatever is lost on F1-U.
//!
//! - `report_links`: What stands on links reports to a CU-UP only what a terminal received, and steps that put only such reports keep this.
//! - `down_reports`: What stands on links reports to a terminal only what was carried up, and steps that put only such reports keep this.
//! - `report_terminals`: A terminal's own steps keep true what is reported to a CU-UP.
//! - `reports_elsewhere`: All other steps keep true what is reported to a CU-UP.
//! - `down_reports_elsewhere`: Steps that aren't a CU-UP's keep true what is reported to a terminal.
//! - `downlink_path_links`: Steps of others keep what stands between a CU-UP and a terminal's radio.
//! - `initial_runs`: Runs go on from where a terminal is set up without messages.
//! - `unused_uplinks`: A bearer's model has nothing on uplinks whose TEIDs weren't given yet, so that nothing is assumed of them.
//! - `assumptions`: What is assumed of control of a CU-UP's orders, with what always holds of the bearer's contexts, is all that these
//!   orders ask.
//! - `reports_at_cu_up`: Less is assumed of a CU-UP's orders where what stands on tunnels reports only what was received.
//! - `down_report_frames`: The status reports that a CU-UP puts say only what was carried up.
//! - `assumed_runs`: Runs ask of a CU-UP's steps only what is assumed of control, and of items what isn't shown yet.
//! - `core_path`: The core's path of a bearer goes on leading to the N3 tunnel of the context that the model sends to, where a path switch
//!   names one.
//! - `report_runs`: Runs assume nothing of reports to a CU-UP, where what stands on links reports only what was received.
//! - `whole_runs`: Runs ask nothing but what is assumed, by what makes each step.
//! - `down_report_runs`: Runs assume nothing of status reports to a terminal: one that it takes says only what was carried up.
//! - `downlink_path_steps`: A step keeps the path of a bearer's packets from the CU-UP to the terminal's radio as it has to be, where
//!   control keeps what is assumed of it.
//! - `guarded_runs`: Runs of which nothing is asked but what is assumed of control deliver in order, down and up, whatever is lost on F1-U.
#![tactic(auto)]

pub mod assumed_runs;
pub mod assumptions;
pub mod core_path;
pub mod down_report_frames;
pub mod down_report_runs;
pub mod down_reports;
pub mod down_reports_elsewhere;
pub mod downlink_path_links;
pub mod downlink_path_steps;
pub mod guarded_runs;
pub mod initial_runs;
pub mod report_links;
pub mod report_runs;
pub mod report_terminals;
pub mod reports_at_cu_up;
pub mod reports_elsewhere;
pub mod unused_uplinks;
pub mod whole_runs;

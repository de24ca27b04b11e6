//! Requests and replies of a unit: what an initiator keeps of the requests that it makes, and a responder of those that it took
//! (the class 1 procedures of TS 38.473, 37.483 and 38.423, 8.1).
#![tactic(auto)]

pub mod callee;
pub mod caller;

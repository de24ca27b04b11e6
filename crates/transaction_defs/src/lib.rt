//! Definitions alone: what an initiator keeps of its requests, and a responder of its replies.
#![tactic(auto)]

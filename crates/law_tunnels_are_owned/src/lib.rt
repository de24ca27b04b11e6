//! Laws of tunnels: a node gives a TEID once, it has one owner while it is open, and each item on its tunnel is the owner's and of its
//! kind.
//!
//! - `link_items`: An item on a link is one that may stand there, by the node at the end and the direction.
//! - `laid_out`: What a unit puts has the layout of its link.
//! - `open_tunnels`: A node opens and closes the tunnels that it reports.
//! - `owner_facts`: Proof steps: whose the open TEIDs of a node are, while its contexts change, end, or get TEIDs.
//! - `tunnel_owners`: Each open TEID has one owner: a context, a bearer and a kind.
//! - `tunnel_book`: The book of a state says for whom its TEIDs may be named.
//! - `run_tunnels`: An item on a tunnel is of the tunnel's owner and kind.
//! - `run_lengths`: The numbers of a terminal are as long as its plan says.
//! - `item_fits`: An item that comes to a CU-UP is one that the orders of a bearer take, where control keeps what it owes.
//! - `new_downlinks`: The downlink TEID that a DU gives is new.
#![tactic(auto)]

pub mod item_fits;
pub mod laid_out;
pub mod link_items;
pub mod new_downlinks;
pub mod open_tunnels;
pub mod owner_facts;
pub mod run_lengths;
pub mod run_tunnels;
pub mod tunnel_book;
pub mod tunnel_owners;

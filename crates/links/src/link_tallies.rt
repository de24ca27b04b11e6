//! How many items of each bearer and direction stand on links of one kind, and how many of them show each COUNT: what links keep
//! beside their items, so that neither number is counted anew.

pub mod tallies;

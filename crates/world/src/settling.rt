//! `settle` in a run of the whole base station: rounds until every bearer of every attached terminal is quiet.

pub mod limit;
pub mod quiet;
pub mod rounds;
pub mod settle;

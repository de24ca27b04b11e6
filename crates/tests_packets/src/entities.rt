//! Tests of the pool, and of the entities of PDCP over it, by public calls alone.

#[cfg(test)]
mod pools;
#[cfg(test)]
mod quotas;
#[cfg(test)]
mod receiving;
#[cfg(test)]
mod rows;
#[cfg(test)]
mod sending;

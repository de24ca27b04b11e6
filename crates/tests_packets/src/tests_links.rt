//! Tests of the links, by public calls alone.

#[cfg(test)]
mod bag;
#[cfg(test)]
mod calls;
#[cfg(test)]
mod radios;
#[cfg(test)]
mod tallies;
#[cfg(test)]
mod tunnels;

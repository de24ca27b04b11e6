//! Tests of an unacknowledged bearer: its receiving entity, and whole runs, worked by hand from TS 38.323, 5.2.2.

#[cfg(test)]
mod runs;
#[cfg(test)]
mod rx;

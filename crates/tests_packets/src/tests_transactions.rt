//! Tests of requests and replies, by public calls alone.

#[cfg(test)]
mod requests;

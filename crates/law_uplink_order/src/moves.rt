//! Steps of the laws of the uplink of one bearer: what the terminal and its radio do, a freeze, and an arrival.

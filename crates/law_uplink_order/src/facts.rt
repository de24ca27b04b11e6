//! Steps of the laws of the uplink of one bearer: what holds in every run, and that what control does to one context keeps it.

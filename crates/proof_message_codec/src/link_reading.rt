//! Steps of proofs over readers of links: what they read in octets is what the layouts of links say there.

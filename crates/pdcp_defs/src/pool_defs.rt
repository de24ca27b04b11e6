//! Definitions alone: the pool of packets, with its references, quotas and parked places.

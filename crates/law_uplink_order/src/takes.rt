//! Steps of the laws of the uplink of one bearer: what a CU-UP takes, passes on and delivers, and how its tunnels end.

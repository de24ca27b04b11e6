//! What ties the tunnels of a run to the lists of a bearer's models, and steps of the law of it: whose a tunnel is, what a step puts on
//! it, and which order takes from it.

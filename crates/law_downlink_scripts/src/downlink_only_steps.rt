//! Steps of the laws of runs in which no unit is told anything: what a CU-UP, a DU and a terminal get leaves each bearer in order.

//! Steps of the laws of runs in which no unit is told anything: each event of packets leaves each bearer in order.

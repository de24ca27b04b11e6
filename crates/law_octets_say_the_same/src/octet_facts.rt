//! Steps of the laws of runs of packets down, over octets: what stands on links and what units keep is in range, and each item that a
//! unit gets, carries or is confirmed keeps it so.

//! Steps of the law of the numbers on a tunnel: which bearer is switched there, and that what a CU-UP puts there is counted.

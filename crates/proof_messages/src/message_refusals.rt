//! Steps of what is said of refused messages: the types of the profile's PDUs and tokens are within the bounds, and each of their sets
//! leaves an id, so that refused octets go wrong by loose layouts.

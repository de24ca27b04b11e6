//! Steps of the laws of what a unit keeps: what holds after an answer, alone, after others, and where a request or a reply is taken.

//! Steps of a proof: where the fields of a value end by where those of its parts do, and that it is one of its type just where they are.

//! Steps of the laws of every run: facts that may speak of the plans that a run keeps of its terminals.

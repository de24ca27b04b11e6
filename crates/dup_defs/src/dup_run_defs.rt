//! Definitions alone: the run of one bearer with PDCP duplication over two legs.

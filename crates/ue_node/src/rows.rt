//! What a terminal keeps, and the rows of the procedure tables by which it changes (TS 38.331, 5.3.5, 5.3.7; TS 38.323, 5.1.2, 5.2). A
//! method for each row, named as the row is, over the record whose view is that of the tables.

pub mod access;
pub mod packets;
pub mod record;
pub mod says;

pub use record::UeRecord;

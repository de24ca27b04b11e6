//! The packet rules of a terminal at one bearer: what it numbers and sends, what it delivers, and what it says when it connects
//! (TS 38.323, 5.1.2, 5.2, 5.4).

pub mod bearer;
pub mod terminal;

pub use bearer::Bearer;
pub use terminal::Terminal;

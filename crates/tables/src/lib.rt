#![tactic(auto)]

pub mod book;
pub mod counts;
pub mod declared_row;
pub mod edge_row;
pub mod fault;
pub mod name_row;
pub mod row;
pub mod rows;
pub mod table;

pub use book::BookRow;
pub use counts::{Counted, VarInfo};
pub use declared_row::Declared;
pub use edge_row::{Edge, Edges};
pub use fault::TableFault;
pub use name_row::{Flag, NameInfo, Names};
pub use records::Id;
pub use row::Row;
pub use rows::Rows;
pub use table::{find, has_row, insert, row_count, zero_rows};

//! Files of rows: texts that are read into blocks, each with a name and parts.
#![tactic(auto)]

mod block;
mod cut;
mod file;
mod pair;
mod reader;
mod refused;
mod told;
mod writer;

pub use block::RowBlock;
pub use file::{lasting, names, text_of};
pub use pair::{Pair, pairs};
pub use reader::blocks;
pub use refused::Refused;
pub use told::RowReport;
pub use writer::RowWriter;

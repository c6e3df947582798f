//! What rows ask of leaves, syntax, lines and paths, and how a row is read. The program keep_test_rows answers them,
//! and those about the layers above.
#![tactic(auto)]

pub mod growths;
pub mod leaves;
pub mod lines;
pub mod paths;
mod row;
pub mod syntax;

pub use row::{Answer, Row, unknown};

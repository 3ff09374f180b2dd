// A table in a lent slice of 9,112 bytes, worked on in place: 17 rows of 134 words (specs/Layout.antt).
#![tactic(auto)]

use crate::rows::ROW;
use algorithm::SERVERS;

pub mod figures;
pub mod rows;
pub mod view;

pub use view::Table;

// The length of a table's slice.
pub const BYTES: usize = 4 * ROW * (1 + SERVERS as usize);

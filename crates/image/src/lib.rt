// The format of a table's image (specs/Image.antt): its opening and contents, and its bodies, read where they stand.
#![tactic(auto)]

pub mod bodies;
pub mod contents;

// The nine actions done, in place, on a table in a lent slice. Which of them may be done is judged elsewhere.
#![tactic(auto)]

pub mod configs;
pub mod logs;

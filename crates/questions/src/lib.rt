// What is asked of the members of a set beside server i. Each loop looks at a server once, and at members alone: it gathers all its sets at
// once, since a loop for each set, with the test as a closure, takes half as many instructions again.
#![tactic(auto)]

pub mod marks;
pub mod shares;
pub mod votes;

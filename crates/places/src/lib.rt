// The processes and the counts of the modelled system in one array of numbers, and answers as four numbers.
#![tactic(auto)]

pub mod answers;
pub mod arrays;
pub mod fields;

// Types of a paper writer. The crate defines the bytes of a paper and the writer's rule, and proves theorems about them.
#![tactic(auto)]

pub mod items;

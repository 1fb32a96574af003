// The exported calls: numbers and structs by value, bytes as pointer and length. Each answer has `code` first: 0, or the refusal's number, and then the
// values are 0; a window or a table is what the call leaves behind.
#![tactic(auto)]

pub mod allocator;
pub mod check;
pub mod contents;
pub mod growth;
pub mod lookups;
pub mod tables;
pub mod visits;
pub mod writes;

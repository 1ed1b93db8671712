//! Books, the machines that they and their like are, and what timed words draw from a machine.

#![tactic(auto)]

pub mod allowance;
pub mod book;
pub mod book_machine;
pub mod fault;
pub mod grain;
mod guard;
pub mod limits;
pub mod machine;
mod make;
mod offsets;
pub mod output_table;
pub mod read;
mod rows;
mod sound;
mod stretch;
mod table;
pub mod view;
pub mod word;

//! The text of a book: its tokens, the readers of its sections, and its writing.

#![tactic(auto)]

pub mod digits;
pub mod draft;
pub mod fault;
pub mod lexer;
pub mod limits;
mod mark;
pub mod put;
pub mod read;
pub mod token;
pub mod write;

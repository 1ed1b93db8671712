//! Comparing two machines by a word that tells them apart, and judging two books.

#![tactic(auto)]

pub mod cell;
pub mod compare;
pub mod fault;
pub mod judge;
pub mod outcome;
pub mod partner;
pub mod report;
mod search;
mod spell;
pub mod workspace;

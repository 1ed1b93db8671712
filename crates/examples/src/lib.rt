//! Worked examples and damaged inputs, tried on the product.

#![tactic(auto)]

#[cfg(test)]
mod books;
#[cfg(test)]
mod buffers;
#[cfg(test)]
mod damaged;
#[cfg(test)]
mod machines;
#[cfg(test)]
mod reading;
#[cfg(test)]
mod tables;
#[cfg(test)]
mod texts;
#[cfg(test)]
mod verdicts;
#[cfg(test)]
mod writing;

// Posts: open, retune, send and hear.
#![tactic(auto)]

mod calls;
mod counting;
mod hearing;
pub mod post;
mod sending;

pub use post::Post;

#[cfg(test)]
mod tests;

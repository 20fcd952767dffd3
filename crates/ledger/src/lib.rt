//! Lists of driver calls as values, and the law that holds of every such list on every chip.

#![tactic(auto)]

mod call;
mod list;

pub use call::{Answer, Call, Entry};
pub use list::{perform, play};

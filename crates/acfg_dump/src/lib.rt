//! Dumps of compiled flags: templates that say how a flag is printed, and filters that say which flags are.
#![tactic(auto)]

mod conditions;
mod dumping;
mod fault;
mod filter;
mod laws;
mod parts;
mod template;
mod values;

pub use conditions::{Condition, Fact, Key};
pub use dumping::dump;
pub use fault::DumpFault;
pub use filter::Filter;
pub use laws::{one_filter, one_template, text_lines};
pub use parts::{Part, Placeholder};
pub use template::Template;
pub use values::{permission_name, state_name};

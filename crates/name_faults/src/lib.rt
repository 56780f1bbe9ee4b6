//! All breaches of names, types and limits in a raw tree, as one definition. `first_fault` answers the first of
//! them, by place and at one place by the table, and none exactly where there is none. Want of memory alone is
//! free.
#![tactic(auto)]

mod expressions;
mod items;
mod nodes;
mod statements;

pub use expressions::meaning;
pub use items::{declare_params, first_fault, has_value, name_of_head, names_of_file};
pub use nodes::params_of;

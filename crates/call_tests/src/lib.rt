//! The commands over a host in memory, where no row says it: cut images, limits at their edges, many seeds and budgets,
//! and `run` beside `cc` and then `sim`.
#![tactic(auto)]

#[cfg(test)]
mod calls;
#[cfg(test)]
mod images;
#[cfg(test)]
mod limits;
#[cfg(test)]
mod pairs;

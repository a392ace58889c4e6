// Hosts and their guests: the limits, who wants to run, and which lists are refused.
#![tactic(auto)]

mod checks;
mod faults;
mod plans;
mod totals;
mod wanting;

pub use checks::check;
pub use faults::{Fault, Refusal};
pub use plans::Plan;
pub use totals::Totals;
pub use wanting::Runnable;

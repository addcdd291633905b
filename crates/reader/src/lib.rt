// Case text in: its lines act on a sheet, up to the first fault.
#![tactic(auto)]

mod enter;
pub mod fault;
pub mod laws;
mod line;
pub mod read;
pub mod stage;

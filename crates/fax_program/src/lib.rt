//! What the programs have in common: devices that record whether they have failed, the faults of a run, and arguments.
#![tactic(auto)]

pub mod arguments;
pub mod device;
pub mod fault;
pub mod files;
pub mod terminal;
pub mod uninterrupted;

pub use device::{Device, Failed};
pub use fault::{RunFault, status_of_fault};
pub use files::{read_all, write_all};
pub use terminal::{args, print};
pub use uninterrupted::Uninterrupted;

//! Tests of the runs of `faxrows`. They are in a crate of their own, since a check of a crate with its tests checks the whole
//! crate once more.
#![tactic(auto)]

#[cfg(test)]
mod device_tests;
#[cfg(test)]
mod tests;

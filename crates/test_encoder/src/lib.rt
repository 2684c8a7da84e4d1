//! Tests of the encoder, and of the callers, which use it. They are in a crate of their own, since a check of a crate with its
//! tests checks the whole crate once more.
#![tactic(auto)]

#[cfg(test)]
mod bitmap_tests;
#[cfg(test)]
mod callers_tests;
#[cfg(test)]
mod cases;
#[cfg(test)]
mod conforms_tests;
#[cfg(test)]
mod large_tests;
#[cfg(test)]
mod page_feed_tests;
#[cfg(test)]
mod settings_tests;
#[cfg(test)]
mod tests;

#[cfg(test)]
use std::fmt::Debug;
#[cfg(test)]
use std::process::Abort;

/// Compares two values. The proof of this call takes no time, and that of `assert_eq!` seconds.
#[cfg(test)]
fn same<T: PartialEq + Debug + Drop>(rt: &impl Abort, found: T, expected: T) {
    assert_eq!(rt; found, expected);
}

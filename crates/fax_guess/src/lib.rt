//! Guesses how fax data is encoded of which nobody knows the width, the encoding or the order of bits.
//!
//! [`guesses`] reads the data strictly by each encoding, in each order of bits, by usual widths and then by others, and where no reading
//! takes all of it leniently, and returns the likeliest ways to read it. [`Guess`] is one of these, and says what speaks for it.
#![tactic(auto)]

mod forms;
mod guess;
mod pixel_count;
mod reading;
mod search;
mod words;

pub use forms::is_usual;
pub use guess::Guess;
pub use search::guesses;

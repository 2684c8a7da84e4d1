//! The arguments that the programs have in common, and what they mean.

ghost use Rattle.std.specs.Prelude.{◌≡◌, ◌<◌, IsTrue, length, map, string_bytes};
ghost use Rattle.std.specs.Char.{is_ascii_digit};
ghost use Rattle.std.specs.List.{list_all};
ghost use Rattle.fax_program.specs.Arguments.{order_with, mode_of, number_of, are_digits, times, has_flag, is_first_arg};
ghost use Rattle.fax_program.specs.Arguments.{is_only_arg, are_flags, are_apart};

use fax_bits::EncodingMode;
use fax_bits::bit_reader::BitOrder;

/// Returns the order of bits that the flags select.
pub fn order_with(flags: &[u8]) -> BitOrder
    ensures { result ≡ order_with flags.now }
{
    if has_flag(flags, b'r') {
        BitOrder::LowestFirst
    } else {
        BitOrder::HighestFirst
    }
}

/// Returns the encoding that an argument names.
pub fn mode_of(arg: &str) -> Option<EncodingMode>
    ensures { result ≡ mode_of arg.now }
{
    match arg {
        "g4" => Some(EncodingMode::Group4),
        "1d" => Some(EncodingMode::Group3_1D),
        "2d" => Some(EncodingMode::Group3_2D),
        _ => None,
    }
}

/// Returns the number of 32 bits that an argument of one to ten digits writes.
pub fn number_of(arg: &str) -> Option<u32>
    ensures { result ≡ number_of arg.now }
{
    if !are_digits(arg) {
        return None;
    }
    arg.parse().ok()
}

/// Returns whether an argument is one to ten digits.
fn are_digits(arg: &str) -> bool
    ensures { result ≡ are_digits arg.now }
{
    !arg.is_empty() && arg.len() <= 10 && are_all_digits(arg.as_bytes())
}

/// Returns whether all bytes of an argument are digits.
fn are_all_digits(arg: &[u8]) -> bool
    ensures { result ≡ list_all is_ascii_digit arg.now }
{
    arg.iter().all(|byte| byte.is_ascii_digit())
}

/// Returns the number of times that a byte occurs in an argument.
pub fn times(arg: &[u8], letter: u8) -> usize
    ensures { result ≡ times letter arg.now }
{
    arg.iter().filter(|byte| **byte == letter).count()
}

/// Returns whether a letter occurs in an argument.
pub fn has_flag(arg: &[u8], letter: u8) -> bool
    ensures { result ≡ has_flag letter arg.now }
{
    times(arg, letter) > 0
}

/// Returns whether an argument is `-`, or one or more of these letters, none of them twice.
#[tactic(auto, unfolding(crate::specs::Arguments::are_flags))]
pub fn are_flags(arg: &[u8], letters: &[u8]) -> bool
    ensures { result ≡ are_flags letters.now arg.now }
{
    let is_none = arg == b"-".as_slice();
    is_none || (!arg.is_empty() && are_letters(arg, letters) && are_apart(arg, letters))
}

/// Returns whether an argument has only these letters.
fn are_letters(arg: &[u8], letters: &[u8]) -> bool
    ensures { result ≡ list_all (λ letter. has_flag letter letters.now) arg.now }
{
    arg.iter().all(|letter| has_flag(letters, *letter))
}

/// Returns whether none of these letters occurs twice in an argument.
fn are_apart(arg: &[u8], letters: &[u8]) -> bool
    ensures { result ≡ are_apart letters.now arg.now }
{
    letters.iter().all(|letter| times(arg, *letter) <= 1)
}

/// Returns whether there is one argument, and it is this.
pub fn is_only_arg(args: &[String], arg: &str) -> bool
    ensures only { result ≡ is_only_arg (map string_bytes args.now) arg.now }
{
    args.len() == 1 && args[0].as_str() == arg
}

/// Returns whether there are arguments, and this is the first of them.
pub fn is_first_arg(args: &[String], arg: &str) -> bool
    ensures first { result ≡ is_first_arg (map string_bytes args.now) arg.now }
    ensures some { IsTrue result → 0 < length args.now }
{
    !args.is_empty() && args[0].as_str() == arg
}

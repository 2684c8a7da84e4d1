//! The pages that are wanted: the numbers and ranges of `--pages`, as `2-5` or `1,3,7-`.

ghost use Rattle.std.specs.Prelude.{◌≡◌, ◌≤◌, IfSome, []};
ghost use Rattle.std.specs.List.{list_any};
ghost use Rattle.faxconv_lib.specs.Pages.{has_page, is_wanted};

use fax_program::arguments::number_of;
use std::alloc::{AllocError, Global};

/// Pages of consecutive numbers.
#[derive(Clone, Copy)]
pub struct PageRange {
    /// The number of the first page.
    pub first: u32,
    /// That of the last page.
    pub last: u32,
}

impl PageRange {
    /// Returns whether a page is in the range.
    pub fn contains(&self, page: u32) -> bool
        ensures { result ≡ has_page page self.now }
    {
        self.first <= page && page <= self.last
    }
}

/// The pages that are wanted: those of some ranges, or all.
#[derive(Drop)]
pub struct PageList {
    /// The ranges, or none for all pages.
    pub ranges: Vec<PageRange>,
}

impl PageList {
    /// Creates the list of all pages.
    pub fn all(alloc: Global) -> PageList
        ensures { result.ranges.items ≡ [] }
    {
        PageList {
            ranges: Vec::new(alloc),
        }
    }

    /// Returns whether a page is wanted: whether it is in one of the ranges, or there are no ranges.
    pub fn contains(&self, page: u32) -> bool
        ensures { result ≡ is_wanted page self.now.ranges.items }
    {
        self.ranges.is_empty() || is_in(self.ranges.as_slice(), page)
    }
}

/// Returns whether a page is in one of these ranges.
fn is_in(ranges: &[PageRange], page: u32) -> bool
    ensures { result ≡ list_any (has_page page) ranges.now }
{
    ranges.iter().any(|range| range.contains(page))
}

/// Returns the pages that an argument names, whose numbers are at least `first`, or `None` if it isn't numbers and ranges.
///
/// # Errors
///
/// If an allocation fails.
pub fn page_list_of(alloc: Global, arg: &str, first: u32) -> Result<Option<PageList>, AllocError> {
    let mut ranges = Vec::new(alloc);
    for part in arg.split(',') {
        match page_range_of(part) {
            Some(range) if range.first >= first => ranges.push(range)?,
            _ => return Ok(None),
        }
    }
    Ok(Some(PageList { ranges }))
}

/// Returns the range that a part of an argument names: a number, two numbers in order with `-` between them, or a number and `-`.
fn page_range_of(part: &str) -> Option<PageRange>
    ensures { IfSome result (λ range. range.first ≤ range.last) }
{
    let (first, last) = match part.split_once('-') {
        None => {
            let page = number_of(part)?;
            (page, page)
        }
        Some((first, "")) => (number_of(first)?, u32::MAX),
        Some((first, last)) => (number_of(first)?, number_of(last)?),
    };
    if first <= last {
        Some(PageRange { first, last })
    } else {
        None
    }
}

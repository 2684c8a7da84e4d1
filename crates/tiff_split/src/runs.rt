//! Ranges of a file, one behind the other in memory.

use std::alloc::{AllocError, Global};

/// A range of a file.
#[derive(Clone, Copy, PartialEq, Eq, PartialOrd, Ord)]
pub(crate) struct Range {
    /// How many bytes of the file come before it.
    pub(crate) start: u64,
    /// How many bytes of the file come before the first one after it.
    pub(crate) end: u64,
}

/// A range of a file that is in memory.
#[derive(Clone, Copy)]
pub(crate) struct Run {
    pub(crate) range: Range,
    /// How many bytes in memory come before it.
    pub(crate) place: u64,
}

/// Returns the runs that have all of some ranges, one behind the other from a place on, and where the last one ends.
pub(crate) fn runs_of(
    alloc: Global,
    ranges: &[Range],
    place: u64,
) -> Result<(Vec<Run>, u64), AllocError> {
    let mut sorted = ranges.to_vec(alloc)?;
    sorted.sort_unstable();
    let mut runs: Vec<Run> = Vec::new(alloc);
    let mut place = place;
    'ranges: for range in sorted.iter() {
        if range.start >= range.end {
            continue;
        }
        match runs.last_mut() {
            Some(last) if range.start <= last.range.end => {
                let more = range.end.saturating_sub(last.range.end);
                last.range.end = last.range.end.max(range.end);
                place = place.saturating_add(more);
            }
            _ => {
                let run = Run {
                    range: *range,
                    place,
                };
                if runs.push(run).is_err() {
                    return Err(AllocError);
                }
                place = place.saturating_add(range.end - range.start);
            }
        }
    }
    Ok((runs, place))
}

/// Returns where a place of a file of so many bytes is in memory: one beyond the end is beyond all, and one that no run has is at 0.
pub(crate) fn place_among(runs: &[Run], place: u64, size: u64) -> u64 {
    if place >= size {
        return u64::MAX;
    }
    let after = runs.partition_point(|run| run.range.start <= place);
    match after.checked_sub(1).and_then(|index| runs.get(index)) {
        Some(run) if place < run.range.end => {
            run.place
                .saturating_add(place.saturating_sub(run.range.start))
        }
        _ => 0,
    }
}

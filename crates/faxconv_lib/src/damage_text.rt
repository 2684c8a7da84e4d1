//! The damage of a page in one line.

use fax_decode::damage::{Damage, RowRanges};
use std::alloc::AllocError;

/// Puts what is damaged: the rows that are missing, repaired, cut, and that no EOL follows; and the first place at which a strict reading
/// fails. Rows and parts are numbered from 1, bits from 0. Nothing is put if nothing is damaged.
pub fn put_damage(damage: &Damage, kind: &str, text: &mut String) -> Result<(), AllocError> {
    let start = text.len();
    put_rows(&damage.missing, "no row", "no rows", start, text)?;
    put_rows(
        &damage.repaired,
        "repaired row",
        "repaired rows",
        start,
        text,
    )?;
    put_rows(&damage.cut, "cut row", "cut rows", start, text)?;
    put_rows(
        &damage.missed,
        "no EOL after row",
        "no EOL after rows",
        start,
        text,
    )?;
    let Some(fault) = &damage.fault else {
        return Ok(());
    };
    put_separator(start, text)?;
    let (row, bit, part) = (fault.row, fault.bit, fault.part);
    let (row, part) = (row.saturating_add(1), part.saturating_add(1));
    write!(
        text,
        "the first rule is broken in row {row} (bit {bit} of {kind} {part}): "
    )?;
    match fault.why {
        None => text.push_str("the data ends"),
        Some(error) => write!(text, "{error}"),
    }
}

/// Puts `; ` if something was put since the text had this length.
fn put_separator(start: usize, text: &mut String) -> Result<(), AllocError> {
    if text.len() > start {
        text.push_str("; ")?;
    }
    Ok(())
}

/// Puts rows, if there are any, with what they are called if there is one, and more.
fn put_rows(
    rows: &RowRanges,
    one: &str,
    more: &str,
    start: usize,
    text: &mut String,
) -> Result<(), AllocError> {
    if rows.count == 0 {
        return Ok(());
    }
    put_separator(start, text)?;
    text.push_str(if rows.count == 1 { one } else { more })?;
    let mut separator = " ";
    let mut listed = 0u64;
    for range in &rows.ranges {
        let (first, last) = (range.first, range.last);
        write!(text, "{separator}{}", first.saturating_add(1))?;
        if last > first {
            write!(text, "-{}", last.saturating_add(1))?;
        }
        listed = listed
            .saturating_add(last.saturating_sub(first))
            .saturating_add(1);
        separator = ", ";
    }
    if listed < rows.count {
        write!(text, " and {} more", rows.count - listed)?;
    }
    Ok(())
}

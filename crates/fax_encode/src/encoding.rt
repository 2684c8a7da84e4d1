//! Encoding by settings: what belongs to each line, and what follows the last one.

ghost use Rattle.std.specs.Prelude.{◌≡◌, ◌++◌, [], false, true, ◌∷◌, length, nat_le, IfOk, OnOk, if◌then◌else◌};
ghost use Rattle.fax_reading.specs.Rows.{AreChanges, pixels};
ghost use Rattle.fax_encode.specs.Settings.{chosen_line, chosen_part, has_eols, left_after, line_1d, line_2d, names_encoding};
ghost use Rattle.fax_encode.specs.Settings.{names_group3};
ghost use Rattle.fax_encode.specs.Settings.{with_end};
ghost use Rattle.fax_encode.specs.Writing.{all_bits};
ghost use Rattle.fax_encode.specs.Settings.{EndsWhereAligned};

use crate::group3::{put_closing_eols, put_eol, put_filled_eol};
use crate::{Effort, EncodeSettings};
use fax_bits::EncodingMode;
use fax_coding::group4::{put_line, put_padding};
use fax_coding::runs::{put_row, put_shortest_row, shortest_takes_at_least, takes_at_least};
use fax_coding::shortest_lines::{Way, put_shortest_line};
use fax_words::bit_writer::BitWriter;
use std::alloc::AllocError;

/// A row to be written and the one before it, each given by its changes.
#[derive(Clone, Copy)]
pub struct RowBelow<'a> {
    /// The changes of the row before it.
    pub reference: &'a [u32],
    /// Its own changes.
    pub changes: &'a [u32],
}

/// Returns whether settings of either kind of Group 3 name an encoding, whatever K is.
fn names_group3(settings: EncodeSettings) -> bool
    ensures { result ≡ names_group3 settings.end_of_line settings.eols_end_at_bytes settings.rows_are_byte_aligned settings.end_of_block }
{
    if settings.end_of_line {
        return !settings.rows_are_byte_aligned;
    }
    !settings.eols_end_at_bytes && !settings.end_of_block
}

/// Returns whether settings name an encoding. With EOLs or fill Group 4 names none, and Group 3 none with fill or RTC without EOLs,
/// with aligned rows and EOLs, or, in two dimensions, with a `k` of 0.
pub fn names_encoding(settings: EncodeSettings) -> bool
    ensures { result ≡ names_encoding settings }
{
    match settings.encoding {
        EncodingMode::Group4 => !settings.end_of_line && !settings.eols_end_at_bytes,
        EncodingMode::Group3_1D => names_group3(settings),
        EncodingMode::Group3_2D => settings.k > 0 && names_group3(settings),
    }
}

/// Writes a one-dimensional line.
#[inline(always)]
#[tactic(auto, using(crate::proofs::RowLists::line_of_list, fax_coding::proofs::ShortestRows::shortest_of_list))]
fn put_line_1d(
    writer: &mut BitWriter,
    effort: Effort,
    columns: u32,
    changes: &[u32],
) -> Result<(), AllocError>
    requires { AreChanges columns changes.now }
    ensures { OnOk result (all_bits writer.new ≡ all_bits writer.old ++ line_1d effort (pixels columns changes.now)) }
{
    match effort {
        Effort::Procedure => put_row(writer, columns, changes),
        Effort::Shortest => put_shortest_row(writer, columns, changes),
    }
}

/// Returns whether a one-dimensional line has at least this many bits.
#[inline(always)]
#[tactic(auto, using(crate::proofs::RowLists::line_of_list, fax_coding::proofs::ShortestRows::shortest_of_list))]
fn line_1d_takes_at_least(effort: Effort, columns: u32, changes: &[u32], bits: u128) -> bool
    requires { AreChanges columns changes.now }
    ensures { result ≡ nat_le bits (length (line_1d effort (pixels columns changes.now))) }
{
    match effort {
        Effort::Procedure => takes_at_least(columns, changes, bits),
        Effort::Shortest => shortest_takes_at_least(columns, changes, bits),
    }
}

/// Writes a two-dimensional line. The list lends its memory.
#[inline(always)]
fn put_line_2d(
    writer: &mut BitWriter,
    ways: &mut Vec<Way>,
    effort: Effort,
    columns: u32,
    rows: RowBelow<'_>,
) -> Result<(), AllocError>
    requires reference { AreChanges columns rows.reference.now }
    requires changes { AreChanges columns rows.changes.now }
    ensures { OnOk result (all_bits writer.new ≡ all_bits writer.old
        ++ line_2d effort (pixels columns rows.entry.reference.now) (pixels columns rows.entry.changes.now)) }
{
    match effort {
        Effort::Procedure => put_line(writer, columns, rows.reference, rows.changes),
        Effort::Shortest => put_shortest_line(writer, ways, columns, rows.reference, rows.changes),
    }
}

/// Writes a two-dimensional line of Group 3 and the tag before it, and returns true. If the one-dimensional line is
/// shorter, writes nothing and returns false.
fn put_if_shorter(
    writer: &mut BitWriter,
    ways: &mut Vec<Way>,
    effort: Effort,
    columns: u32,
    rows: RowBelow<'_>,
) -> Result<bool, AllocError>
    requires reference { AreChanges columns rows.reference.now }
    requires changes { AreChanges columns rows.changes.now }
    ensures shorter { IfOk result (λ is_written. is_written
        ≡ nat_le (length (line_2d effort (pixels columns rows.entry.reference.now) (pixels columns rows.entry.changes.now)))
        (length (line_1d effort (pixels columns rows.entry.changes.now)))) }
    ensures written { IfOk result (λ is_written. all_bits writer.new ≡ all_bits writer.old
        ++ (if is_written
        then false ∷ line_2d effort (pixels columns rows.entry.reference.now) (pixels columns rows.entry.changes.now) else [])) }
{
    let mark = writer.mark();
    writer.put(0, 1)?;
    let start = writer.bit_count();
    put_line_2d(writer, ways, effort, columns, rows)?;
    let taken = writer.bit_count() - start;
    if line_1d_takes_at_least(effort, columns, rows.changes, taken) {
        return Ok(true);
    }
    writer.cut_back(mark);
    Ok(false)
}

/// Writes a one-dimensional line of two-dimensional Group 3 and the tag before it (T.4, 4.2.2).
fn put_one_dimensional(
    writer: &mut BitWriter,
    effort: Effort,
    columns: u32,
    changes: &[u32],
) -> Result<(), AllocError>
    requires { AreChanges columns changes.now }
    ensures { OnOk result (all_bits writer.new ≡ all_bits writer.old ++ true ∷ line_1d effort (pixels columns changes.now)) }
{
    writer.put(1, 1)?;
    put_line_1d(writer, effort, columns, changes)
}

/// Writes a line of two-dimensional Group 3 and the tag before it (T.4, 4.2.1 and 4.2.2). Takes the number of
/// lines that may still be two-dimensional, and returns that after this line.
fn put_line_by_k(
    writer: &mut BitWriter,
    ways: &mut Vec<Way>,
    columns: u32,
    settings: EncodeSettings,
    left: u32,
    rows: RowBelow<'_>,
) -> Result<u32, AllocError>
    requires reference { AreChanges columns rows.reference.now }
    requires changes { AreChanges columns rows.changes.now }
    ensures written { OnOk result (all_bits writer.new ≡ all_bits writer.old
        ++ chosen_line settings.effort EncodingMode.Group3_2D left
        (pixels columns rows.entry.reference.now) (pixels columns rows.entry.changes.now)) }
    ensures left { IfOk result (λ after. after
        ≡ left_after settings.effort EncodingMode.Group3_2D settings.k left
        (pixels columns rows.entry.reference.now) (pixels columns rows.entry.changes.now)) }
{
    let most = settings.k.saturating_sub(1);
    if left == 0 {
        put_one_dimensional(writer, settings.effort, columns, rows.changes)?;
        return Ok(most);
    }
    if put_if_shorter(writer, ways, settings.effort, columns, rows)? {
        return Ok(left - 1);
    }
    put_one_dimensional(writer, settings.effort, columns, rows.changes)?;
    Ok(most)
}

/// Writes a line by its encoding. Takes the number of lines that may still be two-dimensional, and returns that after this
/// line.
#[inline(always)]
fn put_line_of(
    writer: &mut BitWriter,
    ways: &mut Vec<Way>,
    columns: u32,
    settings: EncodeSettings,
    left: u32,
    rows: RowBelow<'_>,
) -> Result<u32, AllocError>
    requires reference { AreChanges columns rows.reference.now }
    requires changes { AreChanges columns rows.changes.now }
    ensures written { OnOk result (all_bits writer.new ≡ all_bits writer.old
        ++ chosen_line settings.effort settings.encoding left
        (pixels columns rows.entry.reference.now) (pixels columns rows.entry.changes.now)) }
    ensures left { IfOk result (λ after. after
        ≡ left_after settings.effort settings.encoding settings.k left
        (pixels columns rows.entry.reference.now) (pixels columns rows.entry.changes.now)) }
{
    match settings.encoding {
        EncodingMode::Group4 => {
            put_line_2d(writer, ways, settings.effort, columns, rows)?;
            Ok(0)
        }
        EncodingMode::Group3_1D => {
            put_line_1d(writer, settings.effort, columns, rows.changes)?;
            Ok(0)
        }
        EncodingMode::Group3_2D => put_line_by_k(writer, ways, columns, settings, left, rows),
    }
}

/// Returns whether EOLs precede the lines.
fn eols_precede_lines(settings: EncodeSettings) -> bool
    ensures { result ≡ has_eols settings.encoding settings.end_of_line }
{
    match settings.encoding {
        EncodingMode::Group4 => false,
        _ => settings.end_of_line,
    }
}

/// Writes a line with what belongs to it: the EOL before it, or zeros up to a whole byte after it. Takes the number of
/// lines that may still be two-dimensional, and returns that after this line.
#[inline(always)]
pub fn put_part(
    writer: &mut BitWriter,
    ways: &mut Vec<Way>,
    columns: u32,
    settings: EncodeSettings,
    left: u32,
    rows: RowBelow<'_>,
) -> Result<u32, AllocError>
    requires reference { AreChanges columns rows.reference.now }
    requires changes { AreChanges columns rows.changes.now }
    requires whole { EndsWhereAligned settings writer.old }
    ensures written { OnOk result (all_bits writer.new ≡ all_bits writer.old
        ++ chosen_part settings (length (all_bits writer.old)) left
        (pixels columns rows.entry.reference.now) (pixels columns rows.entry.changes.now)) }
    ensures left { IfOk result (λ after. after
        ≡ left_after settings.effort settings.encoding settings.k left
        (pixels columns rows.entry.reference.now) (pixels columns rows.entry.changes.now)) }
    ensures whole { OnOk result (EndsWhereAligned settings writer.new) }
{
    if eols_precede_lines(settings) {
        put_filled_eol(writer, settings.eols_end_at_bytes)?;
        return put_line_of(writer, ways, columns, settings, left, rows);
    }
    let after = put_line_of(writer, ways, columns, settings, left, rows)?;
    put_padding(writer, settings.rows_are_byte_aligned)?;
    Ok(after)
}

/// Writes EOFB or RTC, if the picture is closed.
pub fn put_end(writer: &mut BitWriter, settings: EncodeSettings) -> Result<(), AllocError>
    ensures { OnOk result (all_bits writer.new ≡ with_end settings (all_bits writer.old)) }
{
    if !settings.end_of_block {
        return Ok(());
    }
    match settings.encoding {
        EncodingMode::Group4 => {
            put_eol(writer)?;
            put_eol(writer)
        }
        _ if settings.end_of_line => {
            put_closing_eols(writer, settings.encoding, settings.eols_end_at_bytes)
        }
        _ => Ok(()),
    }
}

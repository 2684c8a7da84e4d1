//! The calls that decoding is made of.

use super::calls::calls_each;
use super::same;
use hayro_ccitt::changes::{append_pixels, b1_index, change_or_end};
use hayro_ccitt::codes::{Color, Ticks};
use std::test::Fail;

#[test]
fn reads_bits(rt: HostRuntime) {
    calls_each(
        &rt,
        "Group4 8 columns 0 rows | A580 | read_bit = Ok(1); read_bit = Ok(0); bit_pos = 2; byte_pos = 0; \
         peek_u32 = 2516582400; align = (); bit_pos = 8; byte_pos = 1; consume 7 = Ok(()); at_end = false; \
         read_bit = Ok(0); at_end = true; read_bit = Err(UnexpectedEof)
        Group4 8 columns 0 rows | 000000000180 | holds_one = true; consume 12 = Ok(()); holds_one = true; bit_pos = 12
        Group4 8 columns 0 rows | 0000000000 | holds_one = false; bit_pos = 0
        Group4 8 columns 0 rows | | holds_one = false",
    );
}

#[test]
fn reads_runs(rt: HostRuntime) {
    calls_each(
        &rt,
        "Group4 8 columns 0 rows | 8C0000 | white_run = Ok(3); bit_pos = 4
        Group4 8 columns 0 rows | C00000 | black_run = Ok(2); bit_pos = 2
        Group4 8 columns 0 rows | 350000 | white_run = Ok(0); bit_pos = 8
        Group4 8 columns 0 rows | 0DC000 | black_run = Ok(0); bit_pos = 10
        Group4 8 columns 0 rows | 03C370 | black_run = Ok(64); bit_pos = 20
        Group4 8 columns 0 rows | 4D9A80 | white_run = Ok(1728); bit_pos = 17
        Group4 8 columns 0 rows | 01F300 | white_run = Ok(2588); bit_pos = 19
        Group4 8 columns 0 rows | 01F300 | black_run = Ok(2565); bit_pos = 16
        Group4 8 columns 0 rows | 01 | white_run = Err(UnexpectedEof)
        Group4 8 columns 0 rows | 000000 | white_run = Err(InvalidCode)",
    );
}

#[test]
fn reads_modes(rt: HostRuntime) {
    calls_each(
        &rt,
        "Group4 8 columns 0 rows | 1361834102 | decode_mode = Ok(Pass); decode_mode = Ok(Horizontal); \
         decode_mode = Ok(Vertical(0)); decode_mode = Ok(Vertical(1)); decode_mode = Ok(Vertical(2)); \
         decode_mode = Ok(Vertical(3)); decode_mode = Ok(Vertical(-1)); decode_mode = Ok(Vertical(-2)); \
         decode_mode = Ok(Vertical(-3)); bit_pos = 40; decode_mode = Err(UnexpectedEof)",
    );
}

/// Two EOLs and a one; eight zeros alone, ten zeros and a one, fifteen zeros and a one; an EOL after bits of a line; EOLs with
/// tags of one.
#[test]
fn reads_line_ends(rt: HostRuntime) {
    calls_each(
        &rt,
        "Group4 8 columns 0 rows | 00100180 | zero_run = (11, Some(12)); read_eols 1 = 1; bit_pos = 12; \
         read_eols 9 = 1; bit_pos = 24
        Group4 8 columns 0 rows | 00100180 | read_eol_if_available = 2; bit_pos = 24
        Group4 8 columns 0 rows | 00 | zero_run = (8, None); read_eol_if_available = 0; bit_pos = 0
        Group4 8 columns 0 rows | 0020 | read_eol_if_available = 0; bit_pos = 0
        Group4 8 columns 0 rows | 0001 | read_eol_if_available = 1; bit_pos = 16
        Group3_1D 8 columns 0 rows | 0019F800CC | skip_to_eol = true; bit_pos = 0; consume 12 = Ok(()); skip_to_eol = true; \
         bit_pos = 21; consume 1 = Ok(()); skip_to_eol = false; bit_pos = 22
        Group3_2D 8 columns 0 rows | 001800C006003001800C | read_tagged_eols = 6; bit_pos = 78
        Group3_2D 8 columns 0 rows | 001800C0 | read_tagged_eols = 2; bit_pos = 25
        Group3_2D 8 columns 0 rows | 0018 | read_tagged_eols = 1; bit_pos = 12
        Group3_2D 8 columns 0 rows | 98 | read_tagged_eols = 0; bit_pos = 0",
    );
}

#[test]
fn makes_and_resets_a_context(rt: HostRuntime) {
    calls_each(
        &rt,
        "Group4 8 columns 2 rows s | C0 | settings = DecodeSettings { columns: 8, rows: 2, end_of_block: false, \
         end_of_line: false, rows_are_byte_aligned: false, encoding: Group4, strict: true }; decoded_rows = 0; \
         has_eols = false; tick = (); decode = Ok(()); rows = [],[]; set_has_eols true = (); decoded_rows = 2; \
         has_eols = true; reset = (); decoded_rows = 0; has_eols = false",
    );
}

/// Lines of Group 4; of runs: white 3, black 2, white 3, and white 8; and one of which the last run is cut, which is repaired.
#[test]
fn draws_lines(rt: HostRuntime) {
    calls_each(
        &rt,
        "Group4 8 columns 0 rows | 31C0 | b1_and_b2 = (8, 8); decode_2d_line = Ok(()); next_line = Ok(()); bit_pos = 10; \
         b1_and_b2 = (3, 5); push_pixels 4 = Ok(()); b1_and_b2 = (8, 8); next_line = Ok(()); decoded_rows = 2; \
         rows = [3,5],[]; next_line = Err(Refused)
        Group4 8 columns 0 rows | 8E26 | decode_1d_line = Ok(()); next_line = Ok(()); bit_pos = 10; decode_1d_line = Ok(()); \
         next_line = Ok(()); bit_pos = 15; rows = [3,5],[]; decode_1d_line = Err(UnexpectedEof)
        Group3_1D 8 columns 0 rows l | 8C | set_has_eols true = (); decode_1d_line = Err(UnexpectedEof); \
         recover UnexpectedEof = Ok(()); bit_pos = 0; next_line = Ok(()); push_pixels 4 = Ok(()); fill_white = Ok(()); \
         fill_white = Ok(()); next_line = Ok(()); rows = [3,5],[]
        // no EOLs, no allocation, a refusal: nothing is repaired
        Group3_1D 8 columns 0 rows | 8C | read_bit = Ok(1); recover UnexpectedEof = Err(UnexpectedEof); bit_pos = 1; \
         set_has_eols true = (); recover OutOfMemory = Err(OutOfMemory); bit_pos = 1; \
         recover Refused = Err(Refused); bit_pos = 1",
    );
}

#[test]
fn decodes_from_a_reader(rt: HostRuntime) {
    calls_each(
        &rt,
        "Group4 8 columns 0 rows b | 80080080 | decode = Ok(()); bit_pos = 25; rows = []
        Group3_1D 8 columns 0 rows b | 001980080080080080080080 | decode = Ok(()); bit_pos = 89; rows = []
        Group3_2D 8 columns 0 rows b | 001CC005001800C006003001800C | decode = Ok(()); bit_pos = 110; rows = [],[]",
    );
}

/// The ends of an image and the EOLs after a white row.
#[test]
fn looks_after_a_row(rt: HostRuntime) {
    calls_each(
        &rt,
        "Group3_1D 8 columns 0 rows | 001001 | next_line = Ok(()); set_has_eols true = (); \
         check_eob = Ok(true); bit_pos = 24; has_eols = true
        Group3_1D 8 columns 0 rows | 00100180 | next_line = Ok(()); set_has_eols true = (); \
         check_eob = Ok(false); bit_pos = 24; has_eols = true
        Group3_1D 8 columns 1 rows | 00100180 | next_line = Ok(()); set_has_eols true = (); \
         check_eob = Ok(true); bit_pos = 24; has_eols = true
        Group3_1D 8 columns 1 rows | FFFF | next_line = Ok(()); set_has_eols true = (); \
         check_eob = Ok(true); bit_pos = 0; has_eols = true
        Group3_1D 8 columns 0 rows b | 00100100100100100180 | next_line = Ok(()); set_has_eols true = (); \
         check_eob = Ok(true); bit_pos = 72; has_eols = true
        Group3_1D 8 columns 0 rows | F800CC | next_line = Ok(()); set_has_eols true = (); \
         check_eob = Ok(false); bit_pos = 17; has_eols = true
        Group3_1D 8 columns 0 rows | FFFF | next_line = Ok(()); set_has_eols true = (); \
         check_eob = Ok(false); bit_pos = 0; has_eols = false
        Group3_1D 8 columns 0 rows s | F800CC | next_line = Ok(()); set_has_eols true = (); \
         check_eob = Err(InvalidCode); bit_pos = 0; has_eols = true
        Group3_2D 8 columns 0 rows b | 001800C006003001800C00 | next_line = Ok(()); set_has_eols true = (); \
         check_eob = Ok(true); bit_pos = 78; has_eols = true
        Group3_2D 8 columns 0 rows | FFFF | next_line = Ok(()); set_has_eols true = (); \
         check_eob = Ok(false); bit_pos = 0; has_eols = false",
    );
}

/// White 3, black 2, white 3.
#[test]
fn changes_of_a_row(rt: HostRuntime) -> std::result::Result<(), Fail> {
    let mut ticks = Ticks::new();
    let mut changes = Vec::new(rt.alloc());
    append_pixels(&mut changes, 0, Color::White, 3)?;
    append_pixels(&mut changes, 3, Color::Black, 2)?;
    append_pixels(&mut changes, 5, Color::White, 3)?;
    same(&rt, changes.as_slice(), [3, 5].as_slice());
    for (painted, color, b1, b2, known) in [
        (0, Color::White, 3, 5, 0),
        (0, Color::Black, 5, 8, 0),
        (3, Color::White, 8, 8, 1),
        (3, Color::Black, 5, 8, 1),
    ] {
        let mut passed = 0;
        let index = b1_index(&changes, painted, color, 8, &mut passed, &mut ticks);
        same(&rt, passed, known);
        same(&rt, change_or_end(&changes, index, 8), b1);
        same(&rt, change_or_end(&changes, index + 1, 8), b2);
    }
    Ok(())
}

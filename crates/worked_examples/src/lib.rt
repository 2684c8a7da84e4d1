//! Worked rows: what the definitions yield on small data, as theorems.
//!
//! An example is settings (columns, row limit, flags), bytes in hexadecimal, and the rows as changes with the result.
//! Each is computed when the crate is checked. Rows of 4294967295 columns and long data are in `test_decoder` only.
#![tactic(auto)]

ghost use Rattle.std.specs.Prelude.{◌≡◌, [], ◌∷◌, Ok, Err, true, false};
ghost use Rattle.worked_examples.specs.Examples.{damage_in, repairs_in, cuts_in, misses_in, reading_of, low_first_reading_of};
ghost use Rattle.worked_examples.specs.Examples.{group4, group3_1d, group3_2d};
ghost use Rattle.worked_examples.specs.Examples.{EncodesTwoLines, EncodesTaggedRows, HaveLocalBodies, ReadsDamage};
ghost use Rattle.worked_examples.specs.Examples.{LimitAfterTheBody};
ghost use Rattle.worked_examples.specs.Examples.{OneLineFollows, OneLineDiffers, AreInRange, ReadsDamageByK};
ghost use Rattle.worked_examples.specs.Examples.{AreAlikeAfterTheFirst, ReadsRowsAfter, FeedsOneByte};
ghost use Rattle.worked_examples.specs.Examples.{LineIsOpen, TwoLinesConform, LongRunIsShort, WhiteRowIsOneMode, hex};
ghost use Rattle.hayro_ccitt.specs.Bits.{bits_of};
ghost use Rattle.hayro_ccitt.specs.GapsContinued.{gap_is_settled};
ghost use Rattle.hayro_ccitt.specs.PlainReading.{failed_at};
ghost use Rattle.hayro_ccitt.specs.Space.{most_room};

use hayro_ccitt::DecodeError;

/// Group 4 (T.6).
pub fn group4_examples()
    ensures empty_data_ends_a_group_4_run { reading_of (group4 8 1 "") "" ≡ ([], Ok 0) }
    ensures no_columns { reading_of (group4 0 0 "") "31C0" ≡ ([], Ok 0) }
    ensures one_group_4_row { reading_of (group4 8 1 "") "31C0" ≡ (((3 ∷ 5 ∷ []) ∷ []), Ok 2) }
    ensures second_row_copies_the_first { reading_of (group4 8 2 "") "31F8" ≡ (((3 ∷ 5 ∷ []) ∷ (3 ∷ 5 ∷ []) ∷ []), Ok 2) }
    ensures padding_is_not_the_end { reading_of (group4 8 0 "") "80" ≡ (([] ∷ []), Err DecodeError.InvalidCode) }
    ensures aligned_padding { reading_of (group4 8 0 "a") "80" ≡ (([] ∷ []), Ok 1) }
    ensures vertical_left_of_place_zero { reading_of (group4 8 2 "") "26A2A0" ≡ (((0 ∷ []) ∷ []), Err DecodeError.Overflow) }
    ensures vertical_past_the_edge_lenient { reading_of (group4 8 1 "") "60" ≡ (([] ∷ []), Ok 1) }
    ensures vertical_past_the_edge_strict { reading_of (group4 8 1 "s") "60" ≡ ([], Err DecodeError.InvalidCode) }
    ensures end_of_facsimile_block { reading_of (group4 8 0 "b") "80080080" ≡ (([] ∷ []), Ok 4) }
    ensures what_follows_the_block_is_not_read { reading_of (group4 8 0 "b") "80080080001001" ≡ (([] ∷ []), Ok 4) }
    ensures pass_then_vertical { reading_of (group4 8 2 "") "31C6" ≡ (((3 ∷ 5 ∷ []) ∷ [] ∷ []), Ok 2) }
    ensures vertical_to_the_right { reading_of (group4 8 2 "") "31DB80" ≡ (((3 ∷ 5 ∷ []) ∷ (4 ∷ 6 ∷ []) ∷ []), Ok 3) }
    ensures stray_line_end_lenient { reading_of (group4 8 1 "") "0018" ≡ (([] ∷ []), Ok 2) }
    ensures stray_line_end_strict { reading_of (group4 8 1 "s") "0018" ≡ (([] ∷ []), Ok 2) }
    ensures cut_in_a_black_word { reading_of (group4 8 1 "") "31" ≡ ([], Err DecodeError.UnexpectedEof) }
    ensures aligned_rows_and_block_end { reading_of (group4 8 0 "ba") "31C0E0001001" ≡ (((3 ∷ 5 ∷ []) ∷ (3 ∷ 5 ∷ []) ∷ []), Ok 6) }
    ensures block_end_after_the_limit { reading_of (group4 8 1 "b") "80080080" ≡ (([] ∷ []), Ok 4) }
    ensures all_line_ends_are_read { reading_of (group4 8 1 "") "80080080001001" ≡ (([] ∷ []), Ok 7) }
    ensures b1_falls_back_after_verticals_to_the_left { reading_of (group4 8 2 "") "38A08170"
        ≡ (((5 ∷ 6 ∷ []) ∷ (2 ∷ 3 ∷ 5 ∷ 6 ∷ []) ∷ []), Ok 4) }
    ensures one_white_row { reading_of (group4 8 1 "") "80" ≡ (([] ∷ []), Ok 1) }
    ensures block_end_alone { reading_of (group4 8 0 "b") "001001" ≡ ([], Ok 3) }
    ensures six_zeros_in_a_mode_s_place { reading_of (group4 8 1 "") "00" ≡ ([], Err DecodeError.InvalidCode) }
    ensures two_aligned_rows { reading_of (group4 8 2 "a") "31C0E0" ≡ (((3 ∷ 5 ∷ []) ∷ (3 ∷ 5 ∷ []) ∷ []), Ok 3) }
{}

/// The lowest bit of each byte first (FillOrder 2).
pub fn low_first_examples()
    ensures one_row { low_first_reading_of (group4 8 1 "") "8C03" ≡ (((3 ∷ 5 ∷ []) ∷ []), Ok 2) }
    ensures what_follows_the_block_is_not_read { low_first_reading_of (group4 8 0 "b") "01100001000880" ≡ (([] ∷ []), Ok 4) }
    ensures return_to_control { low_first_reading_of (group3_1d 8 0 "b") "009801100001100001100001" ≡ (([] ∷ []), Ok 12) }
    ensures cut_in_a_black_word { low_first_reading_of (group4 8 1 "") "8C" ≡ ([], Err DecodeError.UnexpectedEof) }
{}

/// Group 3, one-dimensional (T.4, 4.1).
pub fn group3_1d_examples()
    ensures no_columns_2 { reading_of (group3_1d 0 1 "") "00" ≡ ([], Ok 0) }
    ensures cut_make_up_word { reading_of (group3_1d 8 1 "") "01" ≡ ([], Err DecodeError.UnexpectedEof) }
    ensures cut_word_that_zeros_would_complete { reading_of (group3_1d 8 1 "") "8E" ≡ ([], Err DecodeError.UnexpectedEof) }
    ensures one_row_and_return_to_control { reading_of (group3_1d 8 0 "b") "001980080080080080080080" ≡ (([] ∷ []), Ok 12) }
    ensures three_lines_with_line_ends { reading_of (group3_1d 8 0 "l") "0019800C700033" ≡ (([] ∷ (3 ∷ 5 ∷ []) ∷ [] ∷ []), Ok 7) }
    ensures damaged_middle_line { reading_of (group3_1d 8 0 "l") "0019800C400033" ≡ (([] ∷ (3 ∷ 6 ∷ []) ∷ [] ∷ []), Ok 7) }
    ensures damaged_middle_line_white_front { reading_of (group3_1d 8 0 "l") "0019800C000033" ≡ (([] ∷ [] ∷ [] ∷ []), Ok 7) }
    ensures last_word_reaches_into_the_line_end { reading_of (group3_1d 8 0 "l") "00198008EE0033"
        ≡ (([] ∷ (1 ∷ 5 ∷ []) ∷ []), Err DecodeError.InvalidCode) }
    ensures repaired_then_the_same_bits_again { reading_of (group3_1d 8 0 "l") "00" ≡ (([] ∷ []), Err DecodeError.InvalidCode) }
    ensures leading_line_ends_are_not_counted { reading_of (group3_1d 8 0 "b") "001001001001001001" ≡ (([] ∷ []), Ok 9) }
    ensures run_longer_than_the_row_lenient { reading_of (group3_1d 4 1 "") "98" ≡ (([] ∷ []), Ok 1) }
    ensures run_longer_than_the_row_strict { reading_of (group3_1d 4 1 "s") "98" ≡ ([], Err DecodeError.InvalidCode) }
    ensures limit_at_the_changed_row_sound { reading_of (group3_1d 8 2 "l") "0019800C700033" ≡ (([] ∷ (3 ∷ 5 ∷ []) ∷ []), Ok 7) }
    ensures limit_at_the_changed_row_damaged { reading_of (group3_1d 8 2 "l") "0019800C400033" ≡ (([] ∷ (3 ∷ 6 ∷ []) ∷ []), Ok 4) }
    ensures damaged_line_strict { reading_of (group3_1d 8 0 "ls") "0019800C400033" ≡ (([] ∷ []), Err DecodeError.InvalidCode) }
    ensures strict_lines_with_line_ends { reading_of (group3_1d 8 0 "ls") "0019800C700033" ≡ (([] ∷ (3 ∷ 5 ∷ []) ∷ [] ∷ []), Ok 7) }
    ensures leading_line_ends_then_nothing_strict { reading_of (group3_1d 8 0 "bs") "001001001001001001"
        ≡ ([], Err DecodeError.UnexpectedEof) }
    ensures no_line_end_after_a_row_strict { reading_of (group3_1d 8 0 "s") "001980" ≡ (([] ∷ []), Err DecodeError.InvalidCode) }
    ensures cut_word_strict { reading_of (group3_1d 8 1 "s") "01" ≡ ([], Err DecodeError.UnexpectedEof) }
    ensures cut_word_strict_2 { reading_of (group3_1d 8 1 "s") "8E" ≡ ([], Err DecodeError.UnexpectedEof) }
    ensures one_row_and_return_to_control_strict { reading_of (group3_1d 8 0 "bs") "001980080080080080080080" ≡ (([] ∷ []), Ok 12) }
    ensures empty_data_strict { reading_of (group3_1d 8 0 "s") "" ≡ ([], Err DecodeError.UnexpectedEof) }
    ensures one_white_row_strict { reading_of (group3_1d 8 1 "s") "98" ≡ (([] ∷ []), Ok 1) }
    ensures two_aligned_rows_strict { reading_of (group3_1d 8 2 "as") "9898" ≡ (([] ∷ [] ∷ []), Ok 2) }
    ensures skip_to_the_next_line_end { reading_of (group3_1d 8 2 "l") "0019F800CC" ≡ (([] ∷ [] ∷ []), Ok 5) }
    ensures no_line_end_at_once_strict { reading_of (group3_1d 8 2 "ls") "0019F800CC" ≡ (([] ∷ []), Err DecodeError.InvalidCode) }
    ensures a_longer_spelling_of_a_line { reading_of (group3_1d 8 0 "l") "0019800C06F80033" ≡ (([] ∷ [] ∷ [] ∷ []), Ok 8) }
    ensures limit_after_a_body_of_eight_bits { reading_of (group3_1d 8 3 "l") "0019800C700033" ≡ (([] ∷ (3 ∷ 5 ∷ []) ∷ [] ∷ []), Ok 7) }
    ensures limit_after_a_body_of_more_words { reading_of (group3_1d 8 3 "l") "0019800C06E6A1B9A86E6A1B9AF00033"
        ≡ (([] ∷ (3 ∷ 5 ∷ []) ∷ [] ∷ []), Ok 16) }
    ensures cut_to_0_bytes { reading_of (group3_1d 8 0 "b") "" ≡ ([], Err DecodeError.UnexpectedEof) }
    ensures cut_to_1_bytes { reading_of (group3_1d 8 0 "b") "00" ≡ ([], Err DecodeError.InvalidCode) }
    ensures cut_to_2_bytes { reading_of (group3_1d 8 0 "b") "0019" ≡ (([] ∷ []), Err DecodeError.UnexpectedEof) }
    ensures cut_to_3_bytes { reading_of (group3_1d 8 0 "b") "001980" ≡ (([] ∷ []), Err DecodeError.UnexpectedEof) }
    ensures cut_to_4_bytes { reading_of (group3_1d 8 0 "b") "00198008" ≡ (([] ∷ [] ∷ []), Err DecodeError.UnexpectedEof) }
    ensures cut_to_6_bytes { reading_of (group3_1d 8 0 "b") "001980080080" ≡ (([] ∷ [] ∷ []), Err DecodeError.UnexpectedEof) }
    ensures cut_to_7_bytes { reading_of (group3_1d 8 0 "b") "00198008008008" ≡ (([] ∷ [] ∷ []), Err DecodeError.UnexpectedEof) }
    ensures cut_to_9_bytes { reading_of (group3_1d 8 0 "b") "001980080080080080" ≡ (([] ∷ [] ∷ []), Err DecodeError.UnexpectedEof) }
    ensures cut_to_10_bytes { reading_of (group3_1d 8 0 "b") "00198008008008008008" ≡ (([] ∷ [] ∷ []), Err DecodeError.UnexpectedEof) }
    ensures cut_to_5_bytes { reading_of (group3_1d 8 0 "b") "0019800800" ≡ (([] ∷ [] ∷ []), Err DecodeError.InvalidCode) }
    ensures cut_to_8_bytes { reading_of (group3_1d 8 0 "b") "0019800800800800" ≡ (([] ∷ [] ∷ []), Err DecodeError.InvalidCode) }
    ensures cut_to_11_bytes { reading_of (group3_1d 8 0 "b") "0019800800800800800800" ≡ (([] ∷ [] ∷ []), Err DecodeError.InvalidCode) }
    ensures cut_to_12_bytes { reading_of (group3_1d 8 0 "b") "001980080080080080080080" ≡ (([] ∷ []), Ok 12) }
    ensures decode_the_encoded_row { reading_of (group3_1d 8 0 "b") "0018E0004004004004004004" ≡ (((3 ∷ 5 ∷ []) ∷ []), Ok 12) }
    ensures decode_the_encoded_wide_row { reading_of (group3_1d 2560 0 "b") "00101F35001001001001001001" ≡ (([] ∷ []), Ok 13) }
    ensures empty_data_with_line_ends { reading_of (group3_1d 8 0 "l") "" ≡ (([] ∷ []), Ok 0) }
    ensures empty_data { reading_of (group3_1d 8 0 "") "" ≡ ([], Err DecodeError.UnexpectedEof) }
    ensures one_white_row_one_dimensional { reading_of (group3_1d 8 1 "") "98" ≡ (([] ∷ []), Ok 1) }
    ensures two_aligned_rows_one_dimensional { reading_of (group3_1d 8 2 "a") "9898" ≡ (([] ∷ [] ∷ []), Ok 2) }
    ensures the_row_at_which_line_ends_are_given_up_is_not_aligned { reading_of (group3_1d 2 0 "la") "7770" ≡ (([] ∷ [] ∷ [] ∷ []), Ok 2) }
    ensures rows_are_aligned_where_line_ends_are_not_sought { reading_of (group3_1d 2 0 "a") "7770" ≡ (([] ∷ [] ∷ []), Ok 2) }
    ensures line_ends_alone_one_dimensional { reading_of (group3_1d 8 0 "") "001001" ≡ (([] ∷ []), Ok 3) }
{}

/// Group 3, two-dimensional (T.4, 4.2).
pub fn group3_2d_examples()
    ensures no_columns_3 { reading_of (group3_2d 0 0 "bals") "FF" ≡ ([], Ok 0) }
    ensures no_columns_4 { reading_of (group3_2d 0 3 "") "" ≡ ([], Ok 0) }
    ensures two_dimensional_data_closed_by_its_return_to_control { reading_of (group3_2d 8 0 "b") "001CC005001800C006003001800C"
        ≡ (([] ∷ [] ∷ []), Ok 14) }
    ensures tag_one_then_tag_zero { reading_of (group3_2d 8 2 "") "CD" ≡ (([] ∷ [] ∷ []), Ok 1) }
    ensures missing_tag_repaired { reading_of (group3_2d 8 0 "l") "" ≡ (([] ∷ []), Ok 0) }
    ensures missing_tag { reading_of (group3_2d 8 0 "") "" ≡ ([], Err DecodeError.UnexpectedEof) }
    ensures repaired_then_fails_again { reading_of (group3_2d 8 0 "l") "18C0" ≡ (((3 ∷ 5 ∷ []) ∷ []), Err DecodeError.InvalidCode) }
    ensures one_white_row_tagged { reading_of (group3_2d 8 1 "") "CC" ≡ (([] ∷ []), Ok 1) }
    ensures a_repaired_line_read_again_completes { reading_of (group3_2d 1 0 "l") "280005" ≡ (((0 ∷ []) ∷ [] ∷ [] ∷ []), Ok 3) }
    ensures a_repaired_line_read_again_completes_then_a_fault { reading_of (group3_2d 1 0 "l") "2800A0"
        ≡ (((0 ∷ []) ∷ [] ∷ [] ∷ []), Err DecodeError.UnexpectedEof) }
    ensures after_six_line_ends_a_one_is_passed_without_end_of_block { reading_of (group3_2d 8 0 "") "CC006003001800C0060034"
        ≡ (([] ∷ [] ∷ []), Err DecodeError.UnexpectedEof) }
{}

/// Damage: a line that is repaired, bits that stand before an EOL, a run that is cut, and what strict data and data without EOLs have.
pub fn damage_examples()
    ensures no_damage { damage_in (group3_1d 8 0 "l") "0019800C700033" ≡ [] }
    ensures middle_line { damage_in (group3_1d 8 0 "l") "0019800C400033"
        ≡ record { row = 1; start = 29; fault = DecodeError.InvalidCode } ∷ [] }
    ensures last_line { damage_in (group3_1d 8 2 "l") "0019800C400033"
        ≡ record { row = 1; start = 29; fault = DecodeError.InvalidCode } ∷ [] }
    ensures bits_before_an_eol { damage_in (group3_1d 8 2 "l") "0019F800CC"
        ≡ record { row = 0; start = 17; fault = DecodeError.InvalidCode } ∷ [] }
    ensures none_of_these_is_repaired { repairs_in (group3_1d 8 2 "l") "0019F800CC" ≡ [] }
    ensures a_missing_line { damage_in (group3_1d 8 0 "l") "" ≡ record { row = 0; start = 0; fault = DecodeError.UnexpectedEof } ∷ [] }
    ensures a_tagged_line { damage_in (group3_2d 8 0 "l") "18C0" ≡ record { row = 0; start = 0; fault = DecodeError.InvalidCode } ∷ [] }
    ensures given_up { damage_in (group3_1d 2 0 "l") "7770" ≡ record { row = 0; start = 4; fault = DecodeError.InvalidCode } ∷ [] }
    ensures strict { damage_in (group3_1d 8 0 "ls") "0019800C400033" ≡ [] }
    ensures without_eols { damage_in (group3_1d 8 1 "") "01" ≡ [] }
    ensures a_missed_eol { misses_in (group3_1d 8 2 "l") "0019F800CC"
        ≡ record { row = 0; start = 17; fault = DecodeError.InvalidCode } ∷ [] }
    ensures no_eol_is_left { misses_in (group3_1d 2 0 "l") "7770" ≡ record { row = 0; start = 4; fault = DecodeError.InvalidCode } ∷ [] }
    ensures a_cut_run { damage_in (group3_1d 8 1 "l") "001380"
        ≡ record { row = 0; start = 12; fault = DecodeError.InvalidCode } ∷ [] }
    ensures a_cut_run_in_group4 { cuts_in (group4 8 1 "") "34C0" ≡ record { row = 0; start = 0; fault = DecodeError.InvalidCode } ∷ [] }
    ensures none_is_cut { cuts_in (group4 8 1 "") "31C0" ≡ [] }
    ensures none_after_a_repair { misses_in (group3_1d 8 0 "l") "0019800C400033" ≡ [] }
{}

/// Encodings: two lines of T.6, and two of T.4 closed by RTC.
pub fn encoding_examples()
    ensures t6 { EncodesTwoLines }
    ensures t4 { EncodesTaggedRows }
{}

/// Locality: four bodies of which each may replace the others, and the rows of three; and a limit that a later row
/// meets, where the counts still differ by as much as the lengths.
pub fn locality_examples()
    ensures bodies { HaveLocalBodies }
    ensures damage { ReadsDamage }
    ensures limit { LimitAfterTheBody }
{}

/// Locality in two dimensions: a damaged line, one that is read against its row, and the one-dimensional line after them.
pub fn locality_by_k_examples()
    ensures follows { OneLineFollows }
    ensures range { AreInRange }
    ensures applies { OneLineDiffers }
    ensures damage { ReadsDamageByK }
{}

/// Rows after damage: a row is lost, and the third is the same again.
pub fn rows_after_examples()
    ensures applies { AreAlikeAfterTheFirst }
    ensures damage { ReadsRowsAfter }
{}

/// Where strict data fail after one row: where an EOL is missing, or where a damaged line begins.
pub fn fault_examples()
    ensures no_eol { failed_at (group3_1d 8 0 "ls") (bits_of (hex "0019F800CC")) 1 ≡ 17 }
    ensures damaged_line { failed_at (group3_1d 8 0 "ls") (bits_of (hex "0019800C400033")) 1 ≡ 29 }
{}

/// Data in pieces: gaps that no data that follows changes, and gaps and lines that wait for more.
pub fn feed_examples()
    ensures one_after_an_eol { gap_is_settled (group3_1d 8 0 "l") 1 true (bits_of (hex "0019")) ≡ true }
    ensures zeros_after_an_eol { gap_is_settled (group3_1d 8 0 "l") 1 true (bits_of (hex "0010")) ≡ false }
    ensures a_missing_eol_is_sought { gap_is_settled (group3_1d 8 0 "l") 1 true (bits_of (hex "FF")) ≡ false }
    ensures a_missing_eol_is_a_fault { gap_is_settled (group3_1d 8 0 "ls") 1 true (bits_of (hex "FF")) ≡ true }
    ensures half_of_eofb { gap_is_settled (group4 8 0 "b") 1 false (bits_of (hex "0010")) ≡ false }
    ensures eofb { gap_is_settled (group4 8 0 "b") 1 false (bits_of (hex "001001")) ≡ true }
    ensures a_feed { FeedsOneByte }
    ensures half_of_a_line { LineIsOpen "31" }
    ensures a_line { LineIsOpen "31C0" → ⊥ }
{}

/// Memory: for how many changes each list of a context has room at most.
pub fn room_examples()
    ensures by_the_bits { most_room (group4 1728 0 "") (bits_of (hex "31C0")) ≡ 98 }
    ensures by_the_columns { most_room (group4 8 0 "") (bits_of (hex "31C0")) ≡ 82 }
{}

/// Data that conform, and the shortest encoding.
pub fn encoder_examples()
    ensures conforms { TwoLinesConform }
    ensures long_run { LongRunIsShort }
    ensures white_row { WhiteRowIsOneMode }
{}

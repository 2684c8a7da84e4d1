//! Bitmaps: the changes of a row are found. That encoding a bitmap is encoding its changes is tested in `every_small_picture`.

use crate::cases::check;

#[test]
fn rows(rt: HostRuntime) {
    check(
        &rt,
        "rows_of_bitmap",
        "
        8 1800FF: Ok([[3, 5], [], [0]])
        20 7FFFC0004010: Ok([[1, 18], [9, 10, 19]])
        // The bits after a row are ignored, and so is a part of a row.
        3 5FBF: Ok([[1, 2], [0, 1, 2]])
        9 0080FF: Ok([[8]])
        9 FF: Ok([])
        0 FF: Ok([])
        ",
    );
}

#[test]
fn rows_over_words(rt: HostRuntime) {
    check(
        &rt,
        "rows_of_bitmap",
        "
        200 00000000000000018000000000000000FF0000000000000001: Ok([[63, 65, 128, 136, 199]])
        199 00000000000000018000000000000000FF0000000000000001: Ok([[63, 65, 128, 136]])
        64 0000000000000001: Ok([[63]])
        192 FFFFFFFFFFFFFFFFFFFFFFFFFFFFFFFFFFFFFFFFFFFFFFFF: Ok([[0]])
        65 FFFFFFFFFFFFFFFFFFFFFFFFFFFFFFFFFFFF: Ok([[0], [0]])
        ",
    );
}

#[test]
fn bitmaps_that_are_refused(rt: HostRuntime) {
    check(
        &rt,
        "",
        "
        encode_bitmap_g4 0 FF: NoColumns
        encode_bitmap_1d 0 -: NoColumns
        encode_bitmap_1d 9 FF: NoRows
        ",
    );
}

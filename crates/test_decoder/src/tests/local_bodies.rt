//! Bodies of lines that damage may change, how many rows it reaches, and from where on they are the same again.

use super::calls::calls_each;

/// A white line, one with two black pixels, and a white one; then bodies that replace that of the second, and a row limit that is
/// met there.
#[test]
fn bodies_that_are_local(rt: HostRuntime) {
    calls_each(
        &rt,
        "Group3_1D 8 columns 0 rows l | 0019800C700033 | body_is_local 29 39 = Ok(true)
        Group3_1D 8 columns 0 rows l | 0019800C400033 | body_is_local 29 39 = Ok(true)
        Group3_1D 8 columns 0 rows l | 0019800C000033 | body_is_local 29 39 = Ok(true)
        Group3_1D 8 columns 0 rows l | 0019800C700033 | body_is_local 29 38 = Ok(true)
        Group3_1D 8 columns 0 rows l | 0019800C700033 | body_is_local 29 40 = Ok(false)
        Group3_1D 8 columns 0 rows l | 0019800C700033 | body_is_local 28 39 = Ok(false)
        Group3_1D 8 columns 0 rows l | 0019800C700033 | body_is_local 29 29 = Ok(false)
        Group3_1D 8 columns 0 rows l | 0019800C700033 | body_is_local 0 12 = Ok(false)
        Group3_1D 8 columns 0 rows l | 0019800C700033 | body_is_local 29 57 = Ok(false)
        Group3_1D 8 columns 0 rows l | 0019800C700033 | body_is_local 39 29 = Ok(false)
        Group3_1D 8 columns 0 rows l | 00198008EE0033 | body_is_local 29 39 = Ok(false)
        Group3_1D 8 columns 0 rows l | 0019800C06F80033 | body_is_local 29 47 = Ok(true)
        Group3_1D 8 columns 0 rows l s | 0019800C700033 | body_is_local 29 39 = Ok(false)
        Group3_1D 8 columns 2 rows l | 0019800C700033 | body_is_local 29 39 = Ok(true)
        Group3_1D 8 columns 2 rows l | 0019800C400033 | body_is_local 29 39 = Ok(true)",
    );
}

/// Random lines with EOLs between them, and random offsets.
#[test]
fn bodies_of_random_lines(rt: HostRuntime) {
    calls_each(
        &rt,
        "Group3_1D 16 columns 0 rows b | 120D0E0CD603C002 | body_is_local 0 51 = Ok(true)
        Group3_1D 0 columns 0 rows b l a | 0018908B8008 | body_is_local 12 33 = Ok(true)
        Group3_1D 64 columns 0 rows l a | 41043A | body_is_local 21 23 = Ok(false)
        Group3_1D 64 columns 0 rows | 1000C00008 | body_is_local 29 4 = Ok(false)
        Group3_1D 16 columns 0 rows a | 001E0127001001 | body_is_local 39 5 = Ok(false)
        Group3_1D 16 columns 0 rows a s | D4A0 | body_is_local 12 14 = Ok(false)
        Group3_1D 2 columns 0 rows b | 74080040 | body_is_local 0 18 = Ok(false)
        Group3_1D 16 columns 0 rows | 16116002 | body_is_local 0 19 = Ok(true)
        Group3_1D 8 columns 0 rows a | 6C81C814000268 | body_is_local 0 40 = Ok(false)
        Group3_1D 2 columns 0 rows b l a | 0016B98001 | body_is_local 12 27 = Ok(true)
        Group3_1D 8 columns 0 rows l a | 001D8004 | body_is_local 17 25 = Ok(false)
        Group3_1D 8 columns 0 rows b l | 001803A0003C0010 | body_is_local 43 48 = Ok(true)
        Group3_1D 1 columns 0 rows b | E002003194A68008 | body_is_local 26 48 = Ok(false)
        Group3_1D 4294967295 columns 0 rows l | 6D86967B4002 | body_is_local 0 34 = Ok(true)
        Group3_1D 8 columns 0 rows a | 001550E6A0660008 | body_is_local 12 48 = Ok(true)
        Group3_1D 16 columns 0 rows b l | 0010203A80004004 | body_is_local 12 34 = Ok(true)
        Group3_1D 2560 columns 0 rows b a | 8000B836B40008 | body_is_local 18 40 = Ok(false)
        Group3_1D 64 columns 0 rows | 01E0208067 | body_is_local 32 6 = Ok(false)
        Group3_1D 64 columns 0 rows b l | 00188001C01080 | body_is_local 23 17 = Ok(false)
        Group3_2D 64 columns 0 rows | 001701600020 | body_is_local 40 2 = Ok(false)
        Group3_1D 200 columns 0 rows b l a | 0156001001 | body_is_local 17 34 = Ok(false)
        Group3_1D 64 columns 0 rows | 781108180080 | body_is_local 20 3 = Ok(false)
        Group3_1D 2560 columns 0 rows b l a | 00157087040040 | body_is_local 12 38 = Ok(true)
        Group3_1D 3 columns 0 rows b l a | 0010202D000040 | body_is_local 12 33 = Ok(true)
        Group3_1D 2560 columns 0 rows l a | 0019000040 | body_is_local 12 16 = Ok(true)
        Group3_1D 3 columns 0 rows b a | B4B8002631C001 | body_is_local 52 43 = Ok(false)
        Group3_1D 2 columns 0 rows | 800002002380 | body_is_local 0 3 = Ok(true)
        Group3_1D 200 columns 0 rows b a | 0011C37001 | body_is_local 26 22 = Ok(false)
        Group3_1D 64 columns 0 rows | E120 | body_is_local 2 14 = Ok(false)
        Group3_1D 0 columns 0 rows l s | 01403AAD80 | body_is_local 35 14 = Ok(false)
        Group3_1D 200 columns 0 rows a | 804005B20001 | body_is_local 22 31 = Ok(true)
        Group3_1D 0 columns 0 rows b l | 6C8002 | body_is_local 0 9 = Ok(true)
        Group3_1D 8 columns 0 rows b | 380040 | body_is_local 0 6 = Ok(true)
        Group3_1D 3 columns 0 rows a | 00122600 | body_is_local 19 2 = Ok(false)
        Group3_1D 3 columns 0 rows l a | 060AEDA0120400 | body_is_local 56 35 = Ok(false)
        Group3_1D 2 columns 0 rows b a | 001C700274FC | body_is_local 12 23 = Ok(false)
        Group3_1D 8 columns 0 rows l a | 08002002 | body_is_local 6 13 = Ok(false)
        Group3_1D 2 columns 0 rows b l a | D068538008 | body_is_local 1 30 = Ok(false)
        Group3_1D 3 columns 0 rows b | 8C280020 | body_is_local 0 13 = Ok(true)
        Group3_1D 4294967295 columns 0 rows | 00112009A9D80080 | body_is_local 12 45 = Ok(true)
        Group3_2D 8 columns 0 rows l | 00136C | body_is_local 4 23 = Ok(false)
        Group3_1D 8 columns 0 rows l | 001D515FC004 | body_is_local 7 4 = Ok(false)
        Group3_1D 16 columns 0 rows b a | 001B0010 | body_is_local 12 16 = Ok(true)
        Group3_1D 4294967295 columns 0 rows l a | 0010800080 | body_is_local 11 17 = Ok(false)
        Group3_1D 2 columns 0 rows l a | 7EDB620020 | body_is_local 1 28 = Ok(false)
        Group3_1D 16 columns 0 rows l | 350008 | body_is_local 0 9 = Ok(true)
        Group3_1D 3 columns 0 rows b a | DEC00020 | body_is_local 0 9 = Ok(false)
        Group3_1D 64 columns 0 rows b | 701D01260002 | body_is_local 0 33 = Ok(true)
        Group3_1D 64 columns 0 rows b l a | 4640040003EC0040 | body_is_local 0 15 = Ok(false)
        Group3_1D 200 columns 0 rows b a | 00119140480010 | body_is_local 12 37 = Ok(true)
        Group3_1D 16 columns 0 rows l a | 00125E88004004 | body_is_local 45 34 = Ok(false)
        Group3_1D 8 columns 0 rows l a | 0014D06F08D80040 | body_is_local 12 46 = Ok(true)
        Group3_1D 2 columns 0 rows l a | 00104CD20010 | body_is_local 13 33 = Ok(false)
        Group3_1D 64 columns 0 rows l a | 80DC000205A00080 | body_is_local 0 15 = Ok(true)
        Group3_1D 16 columns 0 rows b a | DA60 | body_is_local 7 14 = Ok(false)
        Group3_1D 2 columns 0 rows b | 0CF0DB40 | body_is_local 5 24 = Ok(false)
        Group3_1D 1 columns 0 rows l a | 0011F33001260020 | body_is_local 22 46 = Ok(false)
        Group3_2D 8 columns 0 rows a | 3AD34F00 | body_is_local 31 17 = Ok(false)
        Group3_1D 3 columns 0 rows a | 0011001B00 | body_is_local 22 4 = Ok(false)
        Group3_1D 1 columns 0 rows | 91800080 | body_is_local 0 13 = Ok(true)
        Group3_1D 64 columns 0 rows b l | 806400070001 | body_is_local 6 24 = Ok(false)
        Group3_1D 2560 columns 0 rows b l a | 70DD341AE00010 | body_is_local 0 44 = Ok(false)
        Group3_1D 200 columns 0 rows b | 0011C0 | body_is_local 13 22 = Ok(false)
        Group3_1D 2560 columns 0 rows b | 6902CEA052001001 | body_is_local 0 39 = Ok(true)
        Group3_1D 2560 columns 0 rows l | 7039930DE00010 | body_is_local 0 35 = Ok(true)
        Group3_1D 8 columns 0 rows b l | 35032258C004 | body_is_local 13 1 = Ok(false)
        Group3_1D 200 columns 0 rows b | 03004280 | body_is_local 26 7 = Ok(false)",
    );
}

/// A two-dimensional line between one-dimensional ones; then zeros in its place, which are no line, and an EOL in it. Then a line
/// against whose row the next ends within its EOL, and one after six EOLs with their tags.
#[test]
fn tagged_bodies_that_are_local(rt: HostRuntime) {
    calls_each(
        &rt,
        "Group3_2D 4 columns 0 rows l | 001D800A003356003B | tagged_body_is_local 29 31 = Ok(true)
        Group3_2D 4 columns 0 rows l | 001D800A003356003B | tagged_body_is_local 12 17 = Ok(true)
        Group3_2D 4 columns 0 rows l | 001D800A003356003B | tagged_body_is_local 43 55 = Ok(true)
        Group3_2D 4 columns 0 rows l | 001D800A003356003B | tagged_body_is_local 29 30 = Ok(false)
        Group3_2D 4 columns 0 rows l | 001D800A003356003B | tagged_body_is_local 29 32 = Ok(false)
        Group3_2D 4 columns 0 rows l | 001D800A003356003B | tagged_body_is_local 30 31 = Ok(false)
        Group3_2D 4 columns 0 rows l | 001D800A003356003B | tagged_body_is_local 31 29 = Ok(false)
        Group3_2D 4 columns 0 rows l | 001D800A003356003B | tagged_body_is_local 29 73 = Ok(false)
        Group3_2D 4 columns 0 rows l s | 001D800A003356003B | tagged_body_is_local 29 31 = Ok(false)
        Group3_1D 4 columns 0 rows l | 001D800A003356003B | tagged_body_is_local 29 31 = Ok(false)
        Group3_2D 0 columns 0 rows l | 001D800A003356003B | tagged_body_is_local 29 31 = Ok(true)
        Group3_2D 4 columns 0 rows l | 001D8008003356003B | tagged_body_is_local 29 31 = Ok(false)
        Group3_2D 4 columns 0 rows l | 001D800A0028003356003B | tagged_body_is_local 29 31 = Ok(true)
        Group3_2D 4 columns 0 rows l | 001D800A0028003356003B | tagged_body_is_local 29 45 = Ok(false)
        Group3_2D 4 columns 0 rows l | 001D800A0028003356003B | tagged_body_is_local 43 45 = Ok(true)
        Group3_2D 3 columns 0 rows l | 00094006E80070 | tagged_body_is_local 13 18 = Ok(true)
        Group3_2D 3 columns 0 rows l | 000D4006E80070 | tagged_body_is_local 13 18 = Ok(false)
        Group3_2D 3 columns 0 rows l | 001800C006003001800C00380012800B0018 | tagged_body_is_local 92 96 = Ok(false)
        Group3_2D 3 columns 0 rows l | 001800C006003001800C00380012800B0018 | tagged_body_is_local 108 113 = Ok(true)
        Group3_2D 3 columns 0 rows l | 001800C006003001800C00390012800B0018 | tagged_body_is_local 92 97 = Ok(false)
        // Lines at random, some with a bit changed, left out or added: a reading of T.4 apart from this program found the
        // answers.
        Group3_2D 2 columns 0 rows | 00020111C370019AA1C0 | tagged_body_is_local 15 44 = Ok(true)
        Group3_2D 1 columns 0 rows b l | 000BBCC4400019AA | tagged_body_is_local 13 34 = Ok(true)
        Group3_2D 5 columns 0 rows b | 000C4000002F00 | tagged_body_is_local 13 18 = Ok(true)
        Group3_2D 64 columns 0 rows | 001BFBE0000A50E00180 | tagged_body_is_local 12 28 = Ok(true)
        Group3_2D 2 columns 0 rows l a | 000111D000088E8002E002C000 | tagged_body_is_local 71 75 = Ok(true)
        Group3_2D 8 columns 0 rows l | 00022F8231A8008BF31A80 | tagged_body_is_local 15 45 = Ok(true)
        Group3_2D 17 columns 0 rows l | 0005000037508E0003 | tagged_body_is_local 35 55 = Ok(true)
        Group3_2D 5 columns 0 rows b a | 001DA000528D4000A2350018 | tagged_body_is_local 65 80 = Ok(true)
        Group3_2D 2 columns 0 rows | 0002D94A0020C0 | tagged_body_is_local 15 31 = Ok(true)
        Group3_2D 1 columns 0 rows a | 0019AA000000BABC | tagged_body_is_local 49 63 = Ok(false)
        Group3_2D 8 columns 0 rows b l | 000000011359146A | tagged_body_is_local 32 63 = Ok(false)
        Group3_2D 5 columns 0 rows b a | 0003741D00 | tagged_body_is_local 15 33 = Ok(false)
        Group3_2D 30 columns 0 rows | 0019AAB43A1F4A10E9E0 | tagged_body_is_local 12 76 = Ok(false)
        Group3_2D 3 columns 0 rows | 000000014000335C70 | tagged_body_is_local 51 68 = Ok(false)
        Group3_2D 64 columns 0 rows l | 0011D140007A251000 | tagged_body_is_local 42 61 = Ok(false)
        Group3_2D 8 columns 0 rows a | 000500011744746037 | tagged_body_is_local 32 72 = Ok(false)",
    );
}

/// The EOL after a line, and how many rows damage to that line may change: its own, and those of the two-dimensional lines
/// up to the next one-dimensional one.
#[test]
fn rows_that_damage_reaches(rt: HostRuntime) {
    calls_each(
        &rt,
        "Group3_2D 8 columns 0 rows l | 001CC00463800B800073 | rows_reached 0 = Some(1)
        Group3_2D 8 columns 0 rows l | 001CC00463800B800073 | rows_reached 18 = Some(3)
        Group3_2D 8 columns 0 rows l | 001CC00463800B800073 | rows_reached 41 = Some(2)
        Group3_2D 8 columns 0 rows l | 001CC00463800B800073 | rows_reached 57 = Some(1)
        Group3_2D 8 columns 0 rows l | 001CC00463800B800073 | rows_reached 40 = None
        Group3_2D 8 columns 0 rows l | 001CC00463800B800073 | rows_reached 42 = None
        Group3_2D 8 columns 0 rows l | 001CC00463800B800073 | rows_reached 80 = None
        Group3_2D 8 columns 0 rows l | 001CC00463800B800073 | rows_reached 81 = None
        Group3_2D 8 columns 0 rows l s | 001CC00463800B800073 | rows_reached 41 = None
        Group3_1D 8 columns 0 rows l | 001CC00463800B800073 | rows_reached 41 = None
        // The last word, 010, takes a zero of the EOL, unless there is fill.
        Group3_2D 8 columns 0 rows l | 001CC005400730 | rows_reached 18 = None
        Group3_2D 8 columns 0 rows l | 001CC005400398 | rows_reached 18 = Some(2)
        // RTC, with `end_of_block` and without it.
        Group3_2D 8 columns 0 rows b | 0014006003001800C0060030 | rows_reached 0 = Some(2)
        Group3_2D 8 columns 0 rows | 0014006003001800C0060030 | rows_reached 0 = None
        // Lines at random, some with a bit changed, left out or added: a reading of T.4 apart from this program found the
        // numbers.
        Group3_2D 8 columns 0 rows | 000A003C0002381B800180 | rows_reached 32 = Some(2)
        Group3_2D 8 columns 0 rows b | 0000140000000500000001 | rows_reached 22 = Some(2)
        Group3_2D 8 columns 0 rows | 00004661B8200002800060 | rows_reached 0 = Some(3)
        Group3_2D 8 columns 0 rows b | 0001050002500132870001 | rows_reached 24 = Some(3)
        Group3_2D 8 columns 0 rows | 00140000463000014E6A0001 | rows_reached 0 = Some(4)
        Group3_2D 8 columns 0 rows b | 000A00050004A0031C0000C0 | rows_reached 0 = Some(4)
        Group3_2D 8 columns 0 rows | 00025001600000002C004C0060 | rows_reached 0 = Some(5)
        Group3_2D 8 columns 0 rows | 00063800A00080089AA001 | rows_reached 21 = None
        Group3_2D 8 columns 0 rows b | 0000C740000227540008 | rows_reached 63 = None
        Group3_2D 8 columns 0 rows | 00102088E800088E91D000C0 | rows_reached 38 = None
        Group3_2D 8 columns 0 rows b | 0002451A84089AA001800C | rows_reached 0 = None
        Group3_2D 8 columns 0 rows | 000226A80001600300180080 | rows_reached 0 = None",
    );
}

/// EOLs after damage, and from which bit on the rows are the same again: after the next EOL, if the line in between ends
/// before it.
#[test]
fn bits_from_which_rows_are_in_step(rt: HostRuntime) {
    calls_each(
        &rt,
        "Group3_1D 8 columns 0 rows l | 0019800C700033 | in_step_from 0 = Some(29)
        Group3_1D 8 columns 0 rows l | 0019800C700033 | in_step_from 17 = Some(51)
        Group3_1D 8 columns 0 rows l | 0019800C700033 | in_step_from 18 = None
        Group3_1D 8 columns 0 rows l | 0019800C700033 | in_step_from 36 = None
        Group3_1D 8 columns 0 rows l | 0019800C700033 | in_step_from 57 = None
        Group3_1D 8 columns 3 rows l | 0019800C700033 | in_step_from 0 = None
        Group3_1D 8 columns 0 rows l s | 0019800C700033 | in_step_from 0 = None
        Group3_1D 0 columns 0 rows l | 0019800C700033 | in_step_from 0 = None
        Group4 8 columns 0 rows | 0019800C700033 | in_step_from 0 = None
        // Two EOLs before a line, fill, more runs than columns, RTC, and the end.
        Group3_1D 8 columns 0 rows l | 0010019800CC | in_step_from 0 = None
        Group3_1D 8 columns 0 rows l | 0010019800CC | in_step_from 12 = Some(41)
        Group3_1D 8 columns 0 rows l | 0019800066 | in_step_from 0 = Some(34)
        Group3_1D 8 columns 0 rows l | 0019A800CC | in_step_from 0 = Some(33)
        Group3_1D 8 columns 0 rows b | 001980080080080080080080 | in_step_from 0 = Some(89)
        Group3_1D 8 columns 0 rows | 00198008 | in_step_from 0 = Some(29)
        // The last word, 010, takes a zero of the EOL, unless there is fill; a line without its last run is broken.
        Group3_1D 8 columns 0 rows l | 001F400660 | in_step_from 0 = None
        Group3_1D 8 columns 0 rows l | 001F400330 | in_step_from 0 = Some(31)
        Group3_1D 8 columns 0 rows l | 001F001980 | in_step_from 0 = Some(28)
        // In two dimensions the tag after the second EOL decides.
        Group3_2D 8 columns 0 rows l | 001CC00463800B800073 | in_step_from 0 = None
        Group3_2D 8 columns 0 rows l | 001CC00463800B800073 | in_step_from 41 = Some(74)
        Group3_2D 8 columns 0 rows l s | 001CC00463800B800073 | in_step_from 41 = None
        Group3_2D 8 columns 4 rows l | 001CC00463800B800073 | in_step_from 41 = None
        Group3_2D 8 columns 0 rows l | 001CC00730 | in_step_from 0 = Some(30)
        Group3_2D 8 columns 0 rows l | 00140073 | in_step_from 0 = Some(26)
        Group3_2D 8 columns 0 rows l | 00140050 | in_step_from 0 = None
        Group3_2D 8 columns 0 rows l | 0012003980 | in_step_from 0 = None
        Group3_2D 8 columns 0 rows l | 0012001CC0 | in_step_from 0 = Some(28)
        Group3_2D 8 columns 0 rows l | 001800E6003980 | in_step_from 0 = None
        Group3_2D 8 columns 0 rows b | 0014006003001800C0060030 | in_step_from 0 = Some(92)
        Group3_2D 8 columns 0 rows | 0014006003001800C0060030 | in_step_from 0 = None
        // Damaged strips at random: a reading of T.4 apart from this program found the numbers.
        Group3_1D 8 columns 0 rows l | 8700135B0004D50F4000BF60 | in_step_from 8 = Some(46)
        Group3_1D 3 columns 0 rows l | 000011F001740026B8E0 | in_step_from 5 = Some(40)
        Group3_1D 2 columns 0 rows l | FE22005100135438009AE002E0 | in_step_from 32 = Some(73)
        Group3_1D 2 columns 0 rows b | 00135A6C38009AA1C0 | in_step_from 37 = None
        Group3_2D 3 columns 0 rows b l | 0058E801C005C006E8 | in_step_from 34 = Some(62)
        Group3_2D 8 columns 0 rows | 0019AE3A743800E600335140 | in_step_from 45 = Some(75)
        Group3_2D 3 columns 0 rows l | 0009AC0027001380 | in_step_from 40 = None
        Group3_2D 4 columns 0 rows b l | 008861D000C74E19AC382003 | in_step_from 83 = None",
    );
}

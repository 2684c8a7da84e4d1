//! Group 3: lines with and without EOLs, damaged lines, tags and limits.

use super::cases::decodes_each;

#[test]
fn lines_between_eols(rt: HostRuntime) {
    decodes_each(
        &rt,
        "Group3_1D 8 columns 0 rows l | 0019800C700033 | [[], [3, 5], []] Ok(7) | None 0 0 true
        Group3_1D 8 columns 0 rows l s | 0019800C700033 | [[], [3, 5], []] Ok(7)
        Group3_1D 8 columns 0 rows l | 0019800C06F80033 | [[], [], []] Ok(8)",
    );
}

#[test]
fn lines_without_eols(rt: HostRuntime) {
    decodes_each(
        &rt,
        "Group3_1D 8 columns 1 rows | 98 | [[]] Ok(1) | None 0 0 false
        Group3_1D 8 columns 1 rows s | 98 | [[]] Ok(1)
        Group3_1D 8 columns 2 rows a | 9898 | [[], []] Ok(2)
        Group3_1D 8 columns 2 rows a s | 9898 | [[], []] Ok(2)
        Group3_1D 2 columns 0 rows a | 7770 | [[], []] Ok(2)
        // no EOL is left: the row after which EOLs are no longer sought isn't aligned
        Group3_1D 2 columns 0 rows l a | 7770 | [[], [], []] Ok(2) | None 0 1 false
        Group3_1D 2 columns 0 rows l | 7770 | [[], [], []] Err(UnexpectedEof) | Some(12) 0 1 false
        | 7770 | [[], [], []] Err(UnexpectedEof) | Some(12) 0 1 false
        | reset | None 0 0 false",
    );
}

#[test]
fn rtc_and_leading_eols(rt: HostRuntime) {
    decodes_each(
        &rt,
        "Group3_1D 8 columns 0 rows b | 001980080080080080080080 | [[]] Ok(12) | None 0 0 true
        Group3_1D 8 columns 0 rows b s | 001980080080080080080080 | [[]] Ok(12)
        Group3_1D 8 columns 0 rows b | 001001001001001001 | [[]] Ok(9)
        Group3_1D 8 columns 0 rows b s | 001001001001001001 | [] Err(UnexpectedEof)
        Group3_1D 8 columns 0 rows | 001001 | [[]] Ok(3)",
    );
}

#[test]
fn data_that_ends_in_a_line(rt: HostRuntime) {
    decodes_each(
        &rt,
        "Group3_1D 8 columns 1 rows | | [] Err(UnexpectedEof)
        Group3_1D 8 columns 1 rows | 01 | [] Err(UnexpectedEof)
        Group3_1D 8 columns 1 rows | 8E | [] Err(UnexpectedEof)
        Group3_1D 8 columns 1 rows s | | [] Err(UnexpectedEof)
        Group3_1D 8 columns 1 rows s | 01 | [] Err(UnexpectedEof)
        Group3_1D 8 columns 1 rows s | 8E | [] Err(UnexpectedEof)
        Group3_1D 8 columns 0 rows l | | [[]] Ok(0) | None 1 0 true",
    );
}

#[test]
fn damaged_lines(rt: HostRuntime) {
    decodes_each(
        &rt,
        "Group3_1D 8 columns 0 rows l | 0019800C400033 | [[], [3, 6], []] Ok(7) | None 1 0 true
        | 0019800C400033 | [[], [3, 6], []] Ok(7) | None 1 0 true
        | reset | None 0 0 false
        Group3_1D 8 columns 0 rows l | 0019800C000033 | [[], [], []] Ok(7)
        // the last code word uses zeros of the EOL, which is missed
        Group3_1D 8 columns 0 rows l | 00198008EE0033 | [[], [1, 5]] Err(InvalidCode) | Some(42) 0 1 false
        // repaired, and the same bits are read again
        Group3_1D 8 columns 0 rows l | 00 | [[]] Err(InvalidCode)
        Group3_1D 8 columns 0 rows l | 00*65536 | [[]] Err(InvalidCode)
        Group3_1D 8 columns 0 rows l | 0019800C70 00*2000 | [[], [3, 5]] Err(InvalidCode)
        // the second line's black run has no word
        Group3_1D 8 columns 0 rows l s | 0019800C400033 | [[]] Err(InvalidCode) | Some(29) 0 0 true
        | 0019800C400033 | [[]] Err(InvalidCode) | Some(29) 0 0 true
        | reset | None 0 0 false",
    );
}

/// From the end of the first line on.
#[test]
fn bits_before_an_eol(rt: HostRuntime) {
    decodes_each(
        &rt,
        "Group3_1D 8 columns 2 rows l | 0019F800CC | [[], []] Ok(5) | None 0 1 true
        | 0019F800CC | [[], []] Ok(5) | None 0 1 true
        , 1 | 0019F800CC | [[]] Err(Refused) | Some(33) 0 1 true
        , 0 | 0019F800CC | [] Err(Refused) | Some(12) 0 0 true
        Group3_1D 8 columns 1 rows l | 0019F800CC | [[]] Ok(3) | None 0 0 true
        Group3_1D 8 columns 2 rows l s | 0019F800CC | [[]] Err(InvalidCode) | Some(17) 0 0 true
        | 0019F800CC | [[]] Err(InvalidCode) | Some(17) 0 0 true
        Group3_1D 8 columns 0 rows s | 001980 | [[]] Err(InvalidCode)",
    );
}

#[test]
fn limit_at_a_damaged_line(rt: HostRuntime) {
    decodes_each(
        &rt,
        "Group3_1D 8 columns 2 rows l | 0019800C700033 | [[], [3, 5]] Ok(7)
        Group3_1D 8 columns 2 rows l | 0019800C400033 | [[], [3, 6]] Ok(4) | None 1 0 true",
    );
}

/// The last is 1677722 words of 2560.
#[test]
fn runs_longer_than_the_row(rt: HostRuntime) {
    decodes_each(
        &rt,
        "Group3_1D 4 columns 1 rows | 98 | [[]] Ok(1)
        Group3_1D 4 columns 1 rows s | 98 | [] Err(InvalidCode)
        Group3_1D 4294967295 columns 1 rows | 01F01F*838861 | [] Err(Overflow)",
    );
}

#[test]
fn tagged_lines(rt: HostRuntime) {
    decodes_each(
        &rt,
        "Group3_2D 8 columns 1 rows | CC | [[]] Ok(1)
        Group3_2D 8 columns 2 rows | CD | [[], []] Ok(1)
        Group3_2D 8 columns 0 rows b | 001CC005001800C006003001800C | [[], []] Ok(14) | None 0 0 true
        Group3_2D 8 columns 0 rows | CC006003001800C0060034 | [[], []] Err(UnexpectedEof)
        Group3_2D 8 columns 0 rows l | | [[]] Ok(0)
        Group3_2D 8 columns 0 rows | | [] Err(UnexpectedEof)
        Group3_2D 0 columns 0 rows l | FF | [] Ok(0) | None 0 0 false
        // an EOL and a tag of one, 616 times
        Group3_2D 8 columns 0 rows | 001800C006003001800C006003*77 | [[]] Ok(1001)
        Group3_2D 8 columns 0 rows b | 001800C006003001800C006003*77 | [[]] Ok(1001)",
    );
}

/// A repaired row is the reference row of the next line.
#[test]
fn damaged_tagged_lines(rt: HostRuntime) {
    decodes_each(
        &rt,
        "Group3_2D 8 columns 0 rows l | 18C0 | [[3, 5]] Err(InvalidCode) | Some(0) 1 0 false
        | | [[]] Ok(0)
        | 18C0 | [[3, 5]] Err(InvalidCode) | Some(0) 1 0 false
        Group3_2D 1 columns 0 rows l | 280005 | [[0], [], []] Ok(3)
        Group3_2D 1 columns 0 rows l | 2800A0 | [[0], [], []] Err(UnexpectedEof)",
    );
}

/// Each line is damaged, and the next EOL is looked for.
#[test]
fn many_damaged_lines(rt: HostRuntime) {
    decodes_each(
        &rt,
        "Group3_1D 8 columns 0 rows l | 001F*1000 | [ [],*999 [] ] Err(UnexpectedEof)
        Group3_2D 8 columns 0 rows l | 0018FF*1000 | [ [1,3],*499 [1,3] ] Err(InvalidCode)",
    );
}

/// After each refusal the same context decodes the same data, or other data.
#[test]
fn refusals_of_group_3_rows(rt: HostRuntime) {
    decodes_each(
        &rt,
        "Group3_1D 8 columns 0 rows l, 0 | 0019800C700033 | [] Err(Refused)
        , 1 | 0019800C700033 | [[]] Err(Refused)
        , 2 | 0019800C700033 | [[], [3, 5]] Err(Refused)
        | 0019800C700033 | [[], [3, 5], []] Ok(7)
        // a row that was repaired
        Group3_1D 8 columns 0 rows l, 0 | 0019800C400033 | [] Err(Refused)
        | 0019800C700033 | [[], [3, 5], []] Ok(7)
        , 1 | 0019800C400033 | [[]] Err(Refused) | Some(29) 0 0 true
        | 0019800C700033 | [[], [3, 5], []] Ok(7) | None 0 0 true
        , 2 | 0019800C400033 | [[], [3, 6]] Err(Refused)
        | 0019800C700033 | [[], [3, 5], []] Ok(7)
        | 0019800C400033 | [[], [3, 6], []] Ok(7)
        Group3_2D 8 columns 0 rows b, 0 | 001CC005001800C006003001800C | [] Err(Refused)
        , 1 | 001CC005001800C006003001800C | [[]] Err(Refused)
        | 001CC005001800C006003001800C | [[], []] Ok(14)
        , 0 | 001C70002E00231C006003001800C0060030 | [] Err(Refused)
        | 001CC005001800C006003001800C | [[], []] Ok(14)
        , 1 | 001C70002E00231C006003001800C0060030 | [[3, 5]] Err(Refused)
        | 001CC005001800C006003001800C | [[], []] Ok(14)
        , 2 | 001C70002E00231C006003001800C0060030 | [[3, 5], [3, 5]] Err(Refused)
        | 001CC005001800C006003001800C | [[], []] Ok(14)
        | 001C70002E00231C006003001800C0060030 | [[3, 5], [3, 5], [3, 5]] Ok(18)",
    );
}

/// Two-dimensional data, each followed by the same with one line changed: the rows differ from that line up to the next
/// one-dimensional one.
#[test]
fn damage_ends_at_a_one_dimensional_line(rt: HostRuntime) {
    decodes_each(
        &rt,
        "Group3_2D 8 columns 0 rows l | 001CC00463800B800073 | [[], [3, 5], [3, 5], []] Ok(10)
        Group3_2D 8 columns 0 rows l | 001CC0046F800B800073 | [[], [4, 6], [4, 6], []] Ok(10)
        Group3_2D 8 columns 0 rows l | 001CC00407800B800073 | [[], [], [], []] Ok(10)

        Group3_2D 3 columns 0 rows b l | 0002301B80000DD0000082800CD6 | [[], [2], [0], [0]] Ok(14)
        Group3_2D 3 columns 0 rows b l | 0002301B80000CD0000082800CD6 | [[], [], [1], [0]] Ok(14)

        Group3_2D 5 columns 0 rows l | 0000500044746037000914E50E001BC000DE | [[], [1, 2], [0, 1, 3, 4], [2], [2]] Ok(18)
        Group3_2D 5 columns 0 rows l | 0000500045746027000914E50E001BC000DE | [[], [], [4], [2], [2]] Ok(18)

        Group3_2D 2 columns 0 rows l | 00001135C00019AA1C000002B00041800037 | [[0], [0, 1], [0], [], []] Ok(18)
        Group3_2D 2 columns 0 rows l | 00001135C00019BA1C000002B00041800037 | [[0], [], [], [], []] Ok(18)

        Group3_2D 2 columns 0 rows l | 00066B8002A80002C8E1B80037 | [[0], [0, 1], [0, 1], []] Ok(13)
        Group3_2D 2 columns 0 rows l | 0006638002A80002C8E1B80037 | [[], [], [], []] Ok(13)",
    );
}

/// Rows that are white one after another: up to RTC, a row limit, a refusal, a damaged line, a missed EOL, fill or the end of the
/// data; of either kind of line, without EOLs, aligned, and with runs of two and of three words.
#[test]
fn white_rows_one_after_another(rt: HostRuntime) {
    decodes_each(
        &rt,
        "Group3_1D 8 columns 0 rows b l | 0019800CC0066003300198008008008008008008 | [[], [], [], [], []] Ok(20) | None 0 0 true
        Group3_1D 8 columns 3 rows b l | 0019800CC0066003300198008008008008008008 | [[], [], []] Ok(8) | None 0 0 true
        Group3_1D 8 columns 0 rows b l, 2 | 0019800CC0066003300198008008008008008008 | [[], []] Err(Refused) | Some(46) 0 0 true
        Group3_1D 8 columns 0 rows b l | 0019800CC004030019800CC0040040040040040040 | [[], [], [], [], []] Ok(21) | None 1 0 true
        Group3_1D 8 columns 0 rows b l | 0019800CE003300198008008008008008008 | [[], [], [], []] Ok(18) | None 0 1 true
        Group3_1D 8 columns 0 rows b l s | 0019800CE003300198008008008008008008 | [[], []] Err(InvalidCode) | Some(34) 0 0 true
        Group3_1D 3 columns 0 rows l | 000300030003 | [[], [], []] Err(UnexpectedEof) | Some(47) 1 0 false
        Group3_1D 3 columns 0 rows l s | 000300030003 | [[], []] Err(UnexpectedEof) | Some(47) 0 0 true
        Group3_1D 8 columns 0 rows b l | 00198000CC0066002002002002002002 | [[], [], []] Ok(16) | None 0 0 true
        Group3_2D 8 columns 0 rows b l | 001CC005001400730014006003001800C0060030 | [[], [], [], [], []] Ok(20) | None 0 0 true
        Group3_2D 8 columns 0 rows b l, 3 | 001CC005001400730014006003001800C0060030 | [[], [], []] Err(Refused) | Some(58) 0 0 true
        Group3_1D 8 columns 4 rows | 9CE730 | [[], [], [], []] Ok(3) | None 0 0 false
        Group3_2D 8 columns 4 rows | CD73 | [[], [], [], []] Ok(2) | None 0 0 false
        Group3_1D 8 columns 3 rows a | 989898 | [[], [], []] Ok(3) | None 0 0 false
        Group3_1D 2480 columns 0 rows b l | 00101D0B00101D0B00101D0B00101D0B001001001001001001 | [[], [], [], []] Ok(25) | None 0 0 true
        Group3_2D 2480 columns 0 rows b l | 00180E85800A002800C0742C006003001800C0060030 | [[], [], [], []] Ok(22) | None 0 0 true
        Group3_1D 2623 columns 0 rows b l | 00101F3400101F3400101F3400101F34001001001001001001 | [[], [], [], []] Ok(25) | None 0 0 true
        Group3_2D 2623 columns 0 rows b l | 00180F9A000A002800C07CD0006003001800C0060030 | [[], [], [], []] Ok(22) | None 0 0 true
        Group3_1D 2624 columns 0 rows b l | 00101FD9A80080FECD400407F66A00203FB350010010010010010010 | [[], [], [], []] Ok(28) | None 0 0 true
        Group3_2D 2624 columns 0 rows b l | 00180FECD4005001400603FB35001800C006003001800C | [[], [], [], []] Ok(23) | None 0 0 true
        Group3_2D 8 columns 0 rows b l | 001CC005001400601800A003001800C00600300180 | [[], [], [], [], []] Ok(21) | None 1 0 true",
    );
}

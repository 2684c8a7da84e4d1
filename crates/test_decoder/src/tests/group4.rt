//! Group 4: rows, faults, alignment and ends.

use super::cases::decodes_each;

#[test]
fn rows_of_each_mode(rt: HostRuntime) {
    decodes_each(
        &rt,
        "Group4 8 columns 1 rows | 80 | [[]] Ok(1)
        Group4 8 columns 1 rows | 31C0 | [[3, 5]] Ok(2)
        Group4 8 columns 2 rows | 31F8 | [[3, 5], [3, 5]] Ok(2)
        Group4 8 columns 2 rows | 31C6 | [[3, 5], []] Ok(2)
        Group4 8 columns 2 rows | 31DB80 | [[3, 5], [4, 6]] Ok(3)
        Group4 8 columns 2 rows | 38A08170 | [[5, 6], [2, 3, 5, 6]] Ok(4)",
    );
}

#[test]
fn faults_of_the_data(rt: HostRuntime) {
    decodes_each(
        &rt,
        "Group4 8 columns 1 rows | 00 | [] Err(InvalidCode)
        Group4 8 columns 1 rows | 31 | [] Err(UnexpectedEof)
        Group4 8 columns 0 rows | 80 | [[]] Err(InvalidCode)
        // one row, and then padding that is no mode
        Group4 8 columns 0 rows | 31C0 | [[3, 5]] Err(InvalidCode) | Some(10) 0 0 false
        | 31C0 | [[3, 5]] Err(InvalidCode) | Some(10) 0 0 false
        | reset | None 0 0 false
        // left of the row
        Group4 8 columns 2 rows | 26A2A0 | [[0]] Err(Overflow)
        | C0 | [[], []] Ok(1) | None 0 0 false",
    );
}

#[test]
fn strict_and_lenient(rt: HostRuntime) {
    decodes_each(
        &rt,
        "Group4 8 columns 1 rows | 60 | [[]] Ok(1)
        Group4 8 columns 1 rows s | 60 | [] Err(InvalidCode)
        Group4 8 columns 1 rows | 0018 | [[]] Ok(2)
        Group4 8 columns 1 rows l | 0018 | [[]] Ok(2) | None 0 0 false
        Group4 8 columns 1 rows s | 0018 | [[]] Ok(2)",
    );
}

#[test]
fn aligned_rows(rt: HostRuntime) {
    decodes_each(
        &rt,
        "Group4 8 columns 0 rows a | 80 | [[]] Ok(1)
        Group4 8 columns 2 rows a | 31C0E0 | [[3, 5], [3, 5]] Ok(3)
        Group4 8 columns 0 rows b a | 31C0E0001001 | [[3, 5], [3, 5]] Ok(6)",
    );
}

#[test]
fn ends_of_an_image(rt: HostRuntime) {
    decodes_each(
        &rt,
        "Group4 8 columns 1 rows | | [] Ok(0)
        Group4 0 columns 0 rows | 31C0 | [] Ok(0)
        Group4 8 columns 0 rows b | 80080080 | [[]] Ok(4)
        Group4 8 columns 1 rows b | 80080080 | [[]] Ok(4)
        Group4 8 columns 0 rows b | 001001 | [] Ok(3)
        Group4 8 columns 0 rows b | 80080080001001 | [[]] Ok(4)
        Group4 8 columns 1 rows | 80080080001001 | [[]] Ok(7)",
    );
}

#[test]
fn widest_rows(rt: HostRuntime) {
    decodes_each(
        &rt,
        "Group4 4294967295 columns 1 rows | 80 | [[]] Ok(1)
        Group4 4294967295 columns 1 rows | 50 | [[4294967294]] Ok(1)
        Group4 4294967295 columns 1 rows | 60 | [] Err(Overflow)
        Group4 4294967295 columns 1 rows s | 60 | [] Err(Overflow)
        Group4 4294967295 columns 2 rows | 5C | [[4294967294], [4294967294]] Ok(1)",
    );
}

/// After each refusal the same context decodes the same data, or other data.
#[test]
fn refusals_of_rows(rt: HostRuntime) {
    decodes_each(
        &rt,
        "Group4 8 columns 2 rows, 0 | 31F8 | [] Err(Refused) | Some(0) 0 0 false
        | 31C6 | [[3, 5], []] Ok(2)
        , 1 | 31F8 | [[3, 5]] Err(Refused) | Some(10) 0 0 false
        | 31C6 | [[3, 5], []] Ok(2)
        | 31F8 | [[3, 5], [3, 5]] Ok(2) | None 0 0 false
        Group4 8 columns 0 rows a, 0 | 808080 | [] Err(Refused)
        , 1 | 808080 | [[]] Err(Refused)
        , 2 | 808080 | [[], []] Err(Refused)
        | 808080 | [[], [], []] Ok(3)
        Group4 8 columns 0 rows b a, 0 | 31C0E0001001 | [] Err(Refused)
        , 1 | 31C0E0001001 | [[3, 5]] Err(Refused)
        | 31C0E0001001 | [[3, 5], [3, 5]] Ok(6)
        // a row of 4095 changes
        Group4 4096 columns 1 rows, 0 | 23A23A*1024 | [] Err(Refused)
        | 80 | [[]] Ok(1)",
    );
}

#[test]
fn cut_before_and_in_eofb(rt: HostRuntime) {
    decodes_each(
        &rt,
        "Group4 8 columns 0 rows b | 80 | [[]] Err(InvalidCode)
        Group4 8 columns 0 rows b | 8008 | [[]] Err(UnexpectedEof)
        Group4 8 columns 0 rows b | 800800 | [[]] Err(InvalidCode)
        Group4 8 columns 0 rows b | 80080080 | [[]] Ok(4)
        Group4 8 columns 0 rows b | | [] Ok(0)
        Group4 8 columns 0 rows b | 00 | [] Err(InvalidCode)
        Group4 8 columns 0 rows b | 0010 | [] Err(UnexpectedEof)",
    );
}

#[test]
fn cut_after_the_row_limit(rt: HostRuntime) {
    decodes_each(
        &rt,
        "Group4 8 columns 1 rows | | [] Ok(0)
        Group4 8 columns 1 rows | 80 | [[]] Ok(1)
        Group4 8 columns 1 rows | 8008 | [[]] Ok(2)
        Group4 8 columns 1 rows | 800800 | [[]] Ok(2)
        Group4 8 columns 1 rows | 80080080 | [[]] Ok(4)
        Group4 8 columns 1 rows | 8008008000 | [[]] Ok(4)
        Group4 8 columns 1 rows | 800800800010 | [[]] Ok(6)
        Group4 8 columns 1 rows | 80080080001001 | [[]] Ok(7)",
    );
}

#[test]
fn cut_between_and_in_rows(rt: HostRuntime) {
    decodes_each(
        &rt,
        "Group4 8 columns 0 rows b a | | [] Ok(0)
        Group4 8 columns 0 rows b a | 31 | [] Err(UnexpectedEof)
        Group4 8 columns 0 rows b a | 31C0 | [[3, 5]] Ok(2)
        Group4 8 columns 0 rows b a | 31C0E0 | [[3, 5], [3, 5]] Ok(3)
        Group4 8 columns 0 rows b a | 31C0E000 | [[3, 5], [3, 5]] Err(InvalidCode)
        Group4 8 columns 0 rows b a | 31C0E00010 | [[3, 5], [3, 5]] Err(UnexpectedEof)
        Group4 8 columns 2 rows | 31 | [] Err(UnexpectedEof)
        Group4 8 columns 2 rows | 31DB | [[3, 5]] Err(UnexpectedEof)
        Group4 8 columns 2 rows | 38A081 | [[5, 6]] Err(UnexpectedEof)",
    );
}

//! Run codes by thirteen bits.

ghost use Rattle.std.specs.Prelude.{◌≡◌};

use super::same;
use hayro_ccitt::tables::{
    BLACK_MAKEUP, BLACK_TERMINATING, COMMON_MAKEUP, Lookup, WHITE_MAKEUP, WHITE_TERMINATING,
    build_lookup,
};
use std::process::Abort;
use std::test::Fail;

/// Returns how many bits of a word, from its start, begin thirteen bits.
fn agreement(bits: u32, width: u8, word: u16) -> u32 {
    let others = 13u32.saturating_sub(u32::from(width));
    let whole = u32::from(word).checked_shl(others).unwrap_or(0);
    (whole ^ bits)
        .leading_zeros()
        .saturating_sub(19)
        .min(u32::from(width))
}

/// Returns the entry of thirteen bits, by a scan of a colour's lists.
fn scanned(bits: u32, terminating: &[(u16, u8, u16)], makeup: &[(u16, u8, u16)]) -> u32 {
    let mut longest = 0;
    for list in [terminating, makeup, &COMMON_MAKEUP] {
        for (run, width, word) in list {
            let agreed = agreement(bits, *width, *word);
            if agreed == u32::from(*width) {
                return agreed << 12 | u32::from(*run);
            }
            longest = agreed.max(longest);
        }
    }
    longest.saturating_add(1) << 12 | 0xFFF
}

/// Compares all entries with those of a scan.
fn compare_all(
    rt: &impl Abort,
    lookup: &Lookup,
    terminating: &[(u16, u8, u16)],
    makeup: &[(u16, u8, u16)],
) {
    for index in 0..8192u32 {
        let entry = lookup.entry(index as usize).map(u32::from);
        let wanted = scanned(index, terminating, makeup);
        same(rt, (index, entry), (index, Some(wanted)));
    }
    same(rt, lookup.entry(8192), None);
    same(rt, lookup.entry(usize::MAX), None);
}

#[test]
fn white_entries(rt: HostRuntime) -> std::result::Result<(), Fail> {
    let white = build_lookup(rt.alloc(), &WHITE_TERMINATING, &WHITE_MAKEUP)?;
    for (index, entry) in [
        (0, 0x8FFF),
        (1, 0x8FFF),
        (32, 0xB700),
        (62, 0xCA00),
        (63, 0xCA00),
        (1696, 0x8000),
        (4096, 0x4003),
    ] {
        same(&rt, (index, white.entry(index)), (index, Some(entry)));
    }
    compare_all(&rt, &white, &WHITE_TERMINATING, &WHITE_MAKEUP);
    Ok(())
}

#[test]
fn black_entries(rt: HostRuntime) -> std::result::Result<(), Fail> {
    let black = build_lookup(rt.alloc(), &BLACK_TERMINATING, &BLACK_MAKEUP)?;
    for (index, entry) in [
        (0, 0x8FFF),
        (62, 0xCA00),
        (63, 0xCA00),
        (108, 0xD200),
        (440, 0xA000),
        (6144, 0x2002),
    ] {
        same(&rt, (index, black.entry(index)), (index, Some(entry)));
    }
    compare_all(&rt, &black, &BLACK_TERMINATING, &BLACK_MAKEUP);
    Ok(())
}

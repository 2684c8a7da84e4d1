//! How a file writes its numbers.

ghost use Rattle.std.specs.Prelude.{[], ◌∷◌, ◌≡◌, ◌+◌, ◌<◌, ◌≤◌, ◌^◌, ◌↔◌, length, IfSome, IsNone, true, false};
ghost use Rattle.tiff_read.specs.Numbers.{IsFormOf, count_bytes, entry_bytes, is_big_endian, is_tiff, number_of, offset_bytes};

/// How a file writes its numbers: the order of their bytes, and how many bytes numbers of directories have.
#[derive(Clone, Copy, Debug, PartialEq, Eq)]
pub struct Form {
    /// Whether the first byte of a number counts most (`MM`).
    pub is_big_endian: bool,
    /// Whether it is a BigTIFF file, whose offsets and counts have eight bytes.
    pub is_big_tiff: bool,
}

impl Form {
    /// Returns the form of the file with some bytes, `None` if they don't begin as a TIFF file does (TIFF 6.0, section 2; BigTIFF
    /// has 43 for 42).
    pub fn of_file(bytes: &[u8]) -> Option<Form>
        ensures form { IfSome result (IsFormOf bytes.now) }
        ensures none { IsNone result ↔ (is_tiff bytes.now ≡ false) }
    {
        let is_big_tiff = bytes.starts_with(b"II+\0") || bytes.starts_with(b"MM\0+");
        if !is_big_tiff && !bytes.starts_with(b"II*\0") && !bytes.starts_with(b"MM\0*") {
            return None;
        }
        Some(Form {
            is_big_endian: bytes.starts_with(b"MM"),
            is_big_tiff,
        })
    }

    /// Returns how many bytes an offset has, and the number of an entry's values.
    pub fn offset_bytes(self) -> usize
        ensures { result ≡ offset_bytes self.is_big_tiff }
    {
        if self.is_big_tiff { 8 } else { 4 }
    }

    /// Returns how many bytes a directory's number of entries has.
    pub fn count_bytes(self) -> usize
        ensures { result ≡ count_bytes self.is_big_tiff }
    {
        if self.is_big_tiff { 8 } else { 2 }
    }

    /// Returns how many bytes an entry has: a tag and a type of two bytes, how many values, and these or their offset.
    pub fn entry_bytes(self) -> usize
        ensures { result ≡ entry_bytes self.is_big_tiff }
    {
        if self.is_big_tiff { 20 } else { 12 }
    }

    /// Returns the number of two bytes.
    pub fn short(self, first: u8, second: u8) -> u16
        ensures { result ≡ number_of self.is_big_endian (first ∷ second ∷ []) }
    {
        if self.is_big_endian {
            u16::from(first) * 256 + u16::from(second)
        } else {
            u16::from(second) * 256 + u16::from(first)
        }
    }

    /// Returns the number of at most eight bytes.
    pub fn number(self, digits: &[u8]) -> u64
        requires { length digits.now ≤ 8 }
        ensures { result ≡ number_of self.is_big_endian digits.now }
    {
        if self.is_big_endian {
            number_by_first(digits)
        } else {
            number_by_last(digits)
        }
    }
}

/// Returns the number of at most eight bytes of which the first counts most.
fn number_by_first(digits: &[u8]) -> u64
    requires { length digits.now ≤ 8 }
    ensures { result ≡ number_of true digits.now }
{
    let mut number: u64 = 0;
    'digits: for index in 0..digits.len() {
        number = number * 256 + u64::from(digits[index]);
    }
    number
}

/// Returns the number of at most eight bytes of which the first counts least.
fn number_by_last(digits: &[u8]) -> u64
    requires { length digits.now ≤ 8 }
    ensures { result ≡ number_of false digits.now }
{
    let mut number: u64 = 0;
    'digits: for index in (0..digits.len()).rev() {
        number = number * 256 + u64::from(digits[index]);
    }
    number
}

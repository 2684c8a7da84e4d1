//! What a directory says of each tag.

ghost use Rattle.std.specs.Prelude.{◌≡◌, ◌<◌, ◌≤◌, ℕ, length, IfSome, None};
ghost use Rattle.std.specs.Option.{option_or};
ghost use Rattle.tiff_read.specs.Directories.{values_if};
ghost use Rattle.tiff_read.specs.Texts.{slot_of, values_of};

/// The values of a tag: of which type, how many, and where in the file. There are none if the file lacks a part of them, or the type is unknown.
#[derive(Clone, Copy, Debug, PartialEq, Eq)]
pub struct Values {
    /// The number of the type (TIFF 6.0, section 2): 1 is BYTE.
    pub kind: u16,
    /// How many there are.
    pub count: u64,
    /// How many bytes of the file come before them.
    pub offset: u64,
}

/// The tags that a directory keeps: those from 254 to 328, and 33432.
const KEPT_TAGS: usize = 76;

/// The first tag that is kept.
const FIRST_TAG: u16 = 254;

/// The tag of a copyright notice.
const COPYRIGHT: u16 = 33432;

/// A directory.
#[derive(Drop)]
pub struct Directory {
    /// How many entries were read.
    pub entries: usize,
    /// Whether the file ends within the directory.
    pub is_cut: bool,
    tags: [Option<Values>; 76],
}

impl Directory {
    /// Creates a directory without tags.
    pub(crate) fn new(entries: usize, is_cut: bool) -> Directory
        ensures entries { result.entries ≡ entries }
        ensures is_cut { result.is_cut ≡ is_cut }
        ensures values { (tag : ℕ) → values_of result tag ≡ None }
    {
        Directory {
            entries,
            is_cut,
            tags: [None; 76],
        }
    }

    /// Sets the values of a tag, unless it has some: of a tag that occurs twice the first entry counts.
    pub(crate) fn set(&mut self, tag: u16, values: Values)
        ensures entries { self.new.entries ≡ self.old.entries }
        ensures is_cut { self.new.is_cut ≡ self.old.is_cut }
        ensures values { (wanted : ℕ) → values_of self.new wanted ≡ option_or (values_of self.old wanted) (values_if wanted (record { tag = tag; values = values })) }
    {
        let Some(slot) = slot_of(tag) else {
            return;
        };
        if self.tags[slot].is_none() {
            self.tags[slot] = Some(values);
        }
    }

    /// Returns the values of a tag; `None` if the directory has no such entry, or the tag isn't one that is kept: from 254 to 328, and 33432.
    pub fn find(&self, tag: u16) -> Option<Values>
        ensures { result ≡ values_of self.now tag }
    {
        self.tags[slot_of(tag)?]
    }
}

/// Returns where the values of a tag are kept.
fn slot_of(tag: u16) -> Option<usize>
    ensures slot { result ≡ slot_of tag }
    ensures within { IfSome result (λ slot. slot < KEPT_TAGS) }
{
    match tag {
        FIRST_TAG..=328 => Some(usize::from(tag - FIRST_TAG)),
        COPYRIGHT => Some(KEPT_TAGS - 1),
        _ => None,
    }
}

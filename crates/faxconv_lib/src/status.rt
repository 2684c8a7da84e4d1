//! How a run ends.

ghost use Rattle.std.specs.Prelude.{◌≡◌, ◌⊎◌, ◌≤◌};
ghost use Rattle.faxconv_lib.specs.Statuses.{rank, exit_code};

/// How whole what was read is. A run ends with the worst of its pages.
#[derive(Clone, Copy)]
pub enum Status {
    /// Every page is whole.
    Whole,
    /// All rows are there, but some pages are damaged.
    Damaged,
    /// Rows or pages are missing, or a file isn't read.
    Missing,
    /// The arguments are invalid, reading or writing failed, or memory ran out: nothing more is done.
    CannotGoOn,
}

impl Status {
    /// Returns the worse of two.
    pub fn worse(self, other: Status) -> Status
        ensures bound { (rank self ≤ rank result) × (rank other ≤ rank result) }
        ensures one { (result ≡ self) ⊎ (result ≡ other) }
    {
        match (self, other) {
            (Status::CannotGoOn, _) | (_, Status::CannotGoOn) => Status::CannotGoOn,
            (Status::Missing, _) | (_, Status::Missing) => Status::Missing,
            (Status::Damaged, _) | (_, Status::Damaged) => Status::Damaged,
            (Status::Whole, Status::Whole) => Status::Whole,
        }
    }

    /// Returns the status that the program exits with.
    pub fn exit_code(self) -> u8
        ensures { result ≡ exit_code self }
    {
        match self {
            Status::Whole => 0,
            Status::Damaged => 3,
            Status::Missing => 1,
            Status::CannotGoOn => 2,
        }
    }
}

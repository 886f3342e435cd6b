// The refusals of document 01: each has a name here and its number. The crates that read a manifest tell theirs by number alone; `known` names them.
#![tactic(auto)]

ghost use Rattle.std.specs.Prelude.{◌≡◌, Some};
ghost use Rattle.refusals.specs.Refusals.{number, refused_text};

use std::error::Error;
use std::fmt;

// Why a merge is refused. Document 01's section "Refusal numbers" has a row for each.
#[derive(Clone, Copy, Debug, PartialEq, Eq, PartialOrd, Ord, Hash)]
pub enum Refusal {
    ManifestTooLong = 1,
    StartBytesAbsent = 2,
    NotJson = 3,
    TooManyLevels = 4,
    MemberBesideManifest = 5,
    NoVersion = 6,
    VersionNot1 = 7,
    KnownMemberTwice = 8,
    WrongTypeOrAbsent = 9,
    Size = 10,
    UnknownClockName = 11,
    MachineWithMachines = 12,
    EmptyMachineName = 13,
    IdOutOfRange = 14,
    PathOrIdTwice = 15,
    ClocksWithoutSyncTo = 16,
    MachineWithoutFile = 17,
    SyncToWithoutFile = 18,
    FileNamesNoEntry = 19,
    NoMachineOfASplitFile = 20,
    MachineNotDeclared = 21,
    OffsetNotAnInteger = 22,
    OffsetOutOfRange = 23,
    ClockRelatedToItself = 24,
    SheetEmptyOrTooLong = 25,
    RecordCutOff = 26,
    WrongKindOfRecord = 27,
    WrongField = 28,
    SomethingAfterTheEnd = 29,
    TooManyRecords = 30,
    PathOrSourceTwice = 31,
    PathNotInSheet = 32,
    ClocksOnAContainer = 33,
    IdNotDeclared = 34,
    MachineOnSeveralSources = 35,
    PinnedFileWithASnapshot = 36,
    TooManyMachines = 37,
    MemoryTooShort = 38,
}

impl Refusal {
    // The refusal's number, 1 to 38.
    pub fn number(self) -> u8
        ensures { result ≡ number self }
    {
        self as u8
    }
}

// As the first line of an answer says it.
impl fmt::Display for Refusal {
    ghost output = { λ r. Some (refused_text r) };

    fn fmt<W: fmt::Write>(&self, f: &mut fmt::Formatter<W>) -> fmt::Result {
        write!(f, "refused {}", self.number())
    }
}

impl Error for Refusal {}

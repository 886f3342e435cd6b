// What the reader answers by number, as a result.

ghost use Rattle.std.specs.Prelude.{◌≡◌, ◌≤◌};
ghost use Rattle.refusals.specs.Refusals.{number, refused};

use refusals::Refusal;

// The refusal of a number, 1 to 37.
fn named(n: u8) -> Refusal
    requires { (1 ≤ n) × (n ≤ 37) }
    ensures { number result ≡ n }
{
    match n {
        1 => Refusal::ManifestTooLong,
        2 => Refusal::StartBytesAbsent,
        3 => Refusal::NotJson,
        4 => Refusal::TooManyLevels,
        5 => Refusal::MemberBesideManifest,
        6 => Refusal::NoVersion,
        7 => Refusal::VersionNot1,
        8 => Refusal::KnownMemberTwice,
        9 => Refusal::WrongTypeOrAbsent,
        10 => Refusal::Size,
        11 => Refusal::UnknownClockName,
        12 => Refusal::MachineWithMachines,
        13 => Refusal::EmptyMachineName,
        14 => Refusal::IdOutOfRange,
        15 => Refusal::PathOrIdTwice,
        16 => Refusal::ClocksWithoutSyncTo,
        17 => Refusal::MachineWithoutFile,
        18 => Refusal::SyncToWithoutFile,
        19 => Refusal::FileNamesNoEntry,
        20 => Refusal::NoMachineOfASplitFile,
        21 => Refusal::MachineNotDeclared,
        22 => Refusal::OffsetNotAnInteger,
        23 => Refusal::OffsetOutOfRange,
        24 => Refusal::ClockRelatedToItself,
        25 => Refusal::SheetEmptyOrTooLong,
        26 => Refusal::RecordCutOff,
        27 => Refusal::WrongKindOfRecord,
        28 => Refusal::WrongField,
        29 => Refusal::SomethingAfterTheEnd,
        30 => Refusal::TooManyRecords,
        31 => Refusal::PathOrSourceTwice,
        32 => Refusal::PathNotInSheet,
        33 => Refusal::ClocksOnAContainer,
        34 => Refusal::IdNotDeclared,
        35 => Refusal::MachineOnSeveralSources,
        36 => Refusal::PinnedFileWithASnapshot,
        _ => Refusal::TooManyMachines,
    }
}

// Accepted for 0.
pub(crate) fn judged(n: u8) -> Result<(), Refusal>
    requires { n ≤ 37 }
    ensures { refused result ≡ n }
{
    if n == 0 {
        return Ok(());
    }
    Err(named(n))
}

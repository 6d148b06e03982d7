//! What the program says of a fault, and the status that it ends with.
ghost use Rattle.std.specs.Prelude.{◌≡◌};
ghost use Rattle.hhm.specs.Reports.{check_status, export_status, fault_of_list, fault_status, make_status};
ghost use Rattle.hhm.specs.Reports.{difference_status, file_status, log_kind_status, texts_status};
ghost use Rattle.mm_sum.specs.declared.fault.SumFault.TheVariants.{Memory, Output};
ghost use Rattle.hhm.specs.declared.report.Fault.TheVariants.{Setup, Sum, Texts, Check, Fold, Make, Export, Difference};
ghost use Rattle.hhm.specs.declared.report.Fault.TheVariants.{Ask, Roll};
ghost use Rattle.hhm.specs.Reports.{ask_status, roll_status};

use crate::numbers::ListFault;
use ask_server::AskFault;
use batch_store::SetupFault;
use byte_io::WriteFault;
use log_blocks::LogKind;
use mm_sum::{SumFault, TextsFault};
use mm_text::{MmFault, MmKind};
use snap_export::{DifferenceFault, ExportFault};
use snap_file::{FileFault, SaveFault, SnapFault};
use snap_report::{CheckFault, FoldFault, LogFileFault, MakeFault};
use snap_roll::RollFault;
use std::alloc::AllocError;
use std::process::ExitCode;
use thiserror::Error;

/// Why the program ends without success. Its text is what stands behind `hhm: ` on standard error.
#[derive(Clone, Copy, Debug, PartialEq, Eq, Error)]
pub enum Fault {
    /// A number or a list of an option doesn't have its form.
    #[error("settings: BadNumber")]
    BadNumber,
    /// The path of the snapshot of `fold`, `fork` or `salvage` ends in `.new` or `.lock`: beside a file hhm makes others
    /// so named.
    #[error("settings: BadPath (PATH)")]
    BadPath,
    /// The path of the log of `fold`, `fork` or `salvage` ends so.
    #[error("settings: BadPath (LOG)")]
    BadLog,
    /// The path that `fork`, `salvage` or `fold` is to make ends so.
    #[error("settings: BadPath (OUT)")]
    BadOut,
    /// The path of the coarser file of `roll` ends so.
    #[error("settings: BadPath (TO)")]
    BadTo,
    /// The path of a window's file of `roll` ends so.
    #[error("settings: BadPath (FILE)")]
    BadFile,
    /// Something is under the path that `fork`, `salvage` or `fold` is to make.
    #[error("file: Exists (OUT)")]
    Exists,
    /// Another holds the lock of a log's path.
    #[error("log: Busy")]
    LogBusy,
    /// The system gives no random numbers, so no identity of a new book can be drawn.
    #[error("no random numbers")]
    NoRandom,
    /// The paths of a server's snapshot and log lead to one name in one folder, or a FILE of `roll` leads to TO.
    #[error("settings: SamePath")]
    SamePath,
    /// A server's dimensions, cuts, shards or limits are out of range.
    #[error("settings: {0}")]
    Setup(SetupFault),
    /// `sum` wrote no sum, or not all of it.
    #[error(transparent)]
    Sum(SumFault),
    /// The same of several texts.
    #[error(transparent)]
    Texts(TextsFault),
    /// `check` of one snapshot wrote no line, or not all of it, or `has` didn't.
    #[error(transparent)]
    Check(CheckFault),
    /// `fold` saved no snapshot, or didn't tell it.
    #[error(transparent)]
    Fold(FoldFault),
    /// `fork`, `salvage`, or a `fold` with a log or into a new file, made no snapshot, or didn't report it.
    #[error(transparent)]
    Make(MakeFault),
    /// `export`, `top`, `list` or `degrees`, or `check` of several, wrote nothing, or not all of it, or `export` saved
    /// no compact matrix.
    #[error(transparent)]
    Export(ExportFault),
    /// `export` wrote no difference of two snapshots, or not all of it.
    #[error(transparent)]
    Difference(DifferenceFault),
    /// No server could be reached at the address of `status` or `end`.
    #[error("server: NotReached")]
    NotReached,
    /// A server hasn't answered `status` or `end`, or not as it was asked.
    #[error(transparent)]
    Ask(AskFault),
    /// `roll` took no windows into a coarser file, or didn't report it.
    #[error(transparent)]
    Roll(RollFault),
}

impl From<SumFault> for Fault {
    ghost from_gives = { λ fault e. e ≡ Sum fault };

    fn from(fault: SumFault) -> Fault {
        Fault::Sum(fault)
    }
}

impl From<TextsFault> for Fault {
    ghost from_gives = { λ fault e. e ≡ Texts fault };

    fn from(fault: TextsFault) -> Fault {
        Fault::Texts(fault)
    }
}

impl From<SetupFault> for Fault {
    ghost from_gives = { λ fault e. e ≡ Setup fault };

    fn from(fault: SetupFault) -> Fault {
        Fault::Setup(fault)
    }
}

impl From<CheckFault> for Fault {
    ghost from_gives = { λ fault e. e ≡ Check fault };

    fn from(fault: CheckFault) -> Fault {
        Fault::Check(fault)
    }
}

impl From<FoldFault> for Fault {
    ghost from_gives = { λ fault e. e ≡ Fold fault };

    fn from(fault: FoldFault) -> Fault {
        Fault::Fold(fault)
    }
}

impl From<MakeFault> for Fault {
    ghost from_gives = { λ fault e. e ≡ Make fault };

    fn from(fault: MakeFault) -> Fault {
        Fault::Make(fault)
    }
}

impl From<ExportFault> for Fault {
    ghost from_gives = { λ fault e. e ≡ Export fault };

    fn from(fault: ExportFault) -> Fault {
        Fault::Export(fault)
    }
}

impl From<DifferenceFault> for Fault {
    ghost from_gives = { λ fault e. e ≡ Difference fault };

    fn from(fault: DifferenceFault) -> Fault {
        Fault::Difference(fault)
    }
}

impl From<RollFault> for Fault {
    ghost from_gives = { λ fault e. e ≡ Roll fault };

    fn from(fault: RollFault) -> Fault {
        Fault::Roll(fault)
    }
}

impl From<AskFault> for Fault {
    ghost from_gives = { λ fault e. e ≡ Ask fault };

    fn from(fault: AskFault) -> Fault {
        Fault::Ask(fault)
    }
}

impl From<ListFault> for Fault {
    ghost from_gives = { λ fault e. e ≡ fault_of_list fault };

    fn from(fault: ListFault) -> Fault {
        match fault {
            ListFault::BadNumber => Fault::BadNumber,
            ListFault::Memory => Fault::Sum(SumFault::Memory),
        }
    }
}

impl From<AllocError> for Fault {
    ghost from_gives = { λ _ e. e ≡ Sum Memory };

    fn from(_: AllocError) -> Fault {
        Fault::Sum(SumFault::Memory)
    }
}

impl From<WriteFault> for Fault {
    ghost from_gives = { λ fault e. e ≡ Sum (Output fault) };

    fn from(fault: WriteFault) -> Fault {
        Fault::Sum(SumFault::Output(fault))
    }
}

/// The status of what is wrong with a log: a read that failed is the device's fault, and all else the log's.
pub fn log_kind_status(kind: LogKind) -> u8
    ensures { result ≡ log_kind_status kind }
{
    match kind {
        LogKind::Read => 4,
        LogKind::Memory => 5,
        _ => 3,
    }
}

/// The status of a fault of several texts: as of one, and 4 where one can't be opened.
fn texts_status(fault: TextsFault) -> u8
    ensures { result ≡ texts_status fault }
{
    match fault {
        TextsFault::BadCuts => 2,
        TextsFault::Text(
            _,
            MmFault {
                kind: MmKind::Read,
                ..
            },
        ) => 4,
        TextsFault::Text(..) => 3,
        TextsFault::DimensionsDiffer(_) => 3,
        TextsFault::SumTooLarge => 3,
        TextsFault::File(..) => 4,
        TextsFault::Output(_) => 4,
        TextsFault::Memory => 5,
    }
}

/// The status of a fault of several snapshots, or of a compact matrix.
fn export_status(fault: ExportFault) -> u8
    ensures { result ≡ export_status fault }
{
    match fault {
        ExportFault::File(_, fault) => check_status(fault),
        ExportFault::DimensionsDiffer(_) => 3,
        ExportFault::SumTooLarge => 3,
        ExportFault::Memory => 5,
        ExportFault::Output(_) => 4,
        ExportFault::Save(_) => 4,
    }
}

/// The status of a fault of the difference of two snapshots.
fn difference_status(fault: DifferenceFault) -> u8
    ensures { result ≡ difference_status fault }
{
    match fault {
        DifferenceFault::New(fault) => check_status(fault),
        DifferenceFault::Old(fault) => check_status(fault),
        DifferenceFault::OtherBook => 3,
        DifferenceFault::DimensionsDiffer => 3,
        DifferenceFault::NotBefore(_) => 3,
        DifferenceFault::Falls(..) => 3,
        DifferenceFault::Memory => 5,
        DifferenceFault::Output(_) => 4,
        DifferenceFault::Save(_) => 4,
    }
}

/// The status of a fault of a roll.
fn roll_status(fault: RollFault) -> u8
    ensures { result ≡ roll_status fault }
{
    match fault {
        RollFault::To(fault) => file_status(fault),
        RollFault::ToHasWindow => 3,
        RollFault::ToNotClosed => 3,
        RollFault::File(_, fault) => check_status(fault),
        RollFault::Refused(..) => 3,
        RollFault::Memory => 5,
        RollFault::Save(_) => 4,
        RollFault::Output(_) => 4,
    }
}

/// The status of a fault of a server that was asked. It refuses for want of memory by code 1.
fn ask_status(fault: AskFault) -> u8
    ensures { result ≡ ask_status fault }
{
    match fault {
        AskFault::BadReply => 3,
        AskFault::Refused(1) => 5,
        AskFault::Memory => 5,
        _ => 4,
    }
}

/// The status of a fault of a snapshot's file.
fn file_status(fault: FileFault) -> u8
    ensures { result ≡ file_status fault }
{
    match fault {
        FileFault::Snap(SnapFault::Read) => 4,
        FileFault::Snap(_) => 3,
        _ => 4,
    }
}

/// The status of a fault of `check`.
fn check_status(fault: CheckFault) -> u8
    ensures { result ≡ check_status fault }
{
    match fault {
        CheckFault::File(FileFault::Snap(SnapFault::Read)) => 4,
        CheckFault::File(FileFault::Snap(_)) => 3,
        CheckFault::File(_) => 4,
        CheckFault::Memory => 5,
        CheckFault::Output(_) => 4,
        CheckFault::Log(LogFileFault::Log(fault)) => log_kind_status(fault.kind),
        CheckFault::Log(_) => 4,
        CheckFault::LogDiffers => 2,
        CheckFault::Join(_) => 3,
    }
}

/// The status where no snapshot was made: of what is read as of `check`.
fn make_status(fault: MakeFault) -> u8
    ensures { result ≡ make_status fault }
{
    match fault {
        MakeFault::Read(fault) => check_status(fault),
        MakeFault::HasWindow => 3,
        MakeFault::TooSmall(_) => 2,
        MakeFault::NeedsLog => 2,
        MakeFault::Save(SaveFault::Memory) => 5,
        MakeFault::Save(_) => 4,
        MakeFault::Output(_) => 4,
    }
}

impl Fault {
    /// The status: 2 for settings, 3 for what the text says, 4 for a device, 5 for memory.
    pub fn status(self) -> u8
        ensures { result ≡ fault_status self }
    {
        match self {
            Fault::BadNumber => 2,
            Fault::BadPath => 2,
            Fault::BadLog => 2,
            Fault::BadOut => 2,
            Fault::BadTo => 2,
            Fault::BadFile => 2,
            Fault::Exists => 4,
            Fault::LogBusy => 4,
            Fault::NoRandom => 4,
            Fault::SamePath => 2,
            Fault::Setup(_) => 2,
            Fault::Sum(SumFault::BadCuts) => 2,
            Fault::Sum(
                SumFault::Text(
                    MmFault {
                        kind: MmKind::Read,
                        ..
                    },
                ),
            ) => 4,
            Fault::Sum(SumFault::Text(_)) => 3,
            Fault::Sum(SumFault::SumTooLarge) => 3,
            Fault::Sum(SumFault::Output(_)) => 4,
            Fault::Sum(SumFault::Memory) => 5,
            Fault::Texts(fault) => texts_status(fault),
            Fault::Check(fault) => check_status(fault),
            Fault::Make(fault) => make_status(fault),
            Fault::Fold(FoldFault::File(FileFault::Snap(SnapFault::Read))) => 4,
            Fault::Fold(FoldFault::File(FileFault::Snap(_))) => 3,
            Fault::Fold(FoldFault::File(_)) => 4,
            Fault::Fold(FoldFault::Memory) => 5,
            Fault::Fold(FoldFault::TooSmall(_)) => 2,
            Fault::Fold(FoldFault::NeedsLog) => 2,
            Fault::Fold(FoldFault::Save(_)) => 4,
            Fault::Fold(FoldFault::Output(_)) => 4,
            Fault::Export(fault) => export_status(fault),
            Fault::Difference(fault) => difference_status(fault),
            Fault::Roll(fault) => roll_status(fault),
            Fault::NotReached => 4,
            Fault::Ask(fault) => ask_status(fault),
        }
    }

    /// The status as the process ends with it.
    pub fn exit_code(self) -> ExitCode {
        ExitCode::from(self.status())
    }
}

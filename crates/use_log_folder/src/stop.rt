//! Why the program goes no further.

use byte_io::DeviceFault;
use log_folder::{FolderFault, RotateFault};
use snap_file::FileFault;

/// What failed.
#[derive(Clone, Copy, Debug, PartialEq, Eq)]
pub enum Stop {
    Folder,
    Rotate,
    Device,
    Lock,
}

impl Stop {
    pub fn words(&self) -> &'static str {
        match self {
            Stop::Folder => "the folder wasn't opened",
            Stop::Rotate => "no new log was made",
            Stop::Device => "a call failed",
            Stop::Lock => "no lock was had",
        }
    }
}

impl From<FolderFault> for Stop {
    fn from(_fault: FolderFault) -> Stop {
        Stop::Folder
    }
}

impl From<RotateFault> for Stop {
    fn from(_fault: RotateFault) -> Stop {
        Stop::Rotate
    }
}

impl From<DeviceFault> for Stop {
    fn from(_fault: DeviceFault) -> Stop {
        Stop::Device
    }
}

impl From<FileFault> for Stop {
    fn from(_fault: FileFault) -> Stop {
        Stop::Lock
    }
}

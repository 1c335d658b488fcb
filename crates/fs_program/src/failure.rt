//! Why a job wasn't done. The text is the line that is printed on the standard error.

use fs_access::AccessFault;
use fs_check::CheckFault;
use fs_images::{MkfsFault, UpgradeFault};
use fs_info::InfoFault;
use fs_shell::RunFault;
use fs_system::MountFault;
use fuse_serving::ServeFault;
use host_trees::CopyFault;
use thiserror::Error;

/// Why a job wasn't done.
#[derive(Debug, Drop, Error)]
pub enum Failure {
    /// The file that is to be made is there.
    #[error("image: exists")]
    Exists,
    /// The image can't be made: the file, or the disk in memory.
    #[error("image: cannot create")]
    NotCreated,
    /// The image can't be opened.
    #[error("image: cannot open")]
    NotOpened,
    /// The script can't be opened.
    #[error("script: cannot open")]
    NoScript,
    /// The file for denials can neither be made nor opened.
    #[error("denials: cannot open")]
    NoDenials,
    /// No file system was made.
    #[error("mkfs: {0}")]
    Mkfs(MkfsFault),
    /// The file system was not mounted.
    #[error("mount: {0}")]
    Mount(MountFault),
    /// The image was not checked to the end.
    #[error("check: {0}")]
    Check(CheckFault),
    /// The image says nothing of itself.
    #[error("info: {0}")]
    Info(InfoFault),
    /// The file system was not upgraded.
    #[error("upgrade: {0}")]
    Upgrade(UpgradeFault),
    /// The run ended early.
    #[error("run: {0}")]
    Run(RunFault),
    /// The tree of a directory was not copied to the image to the end.
    #[error("pack: {0}")]
    Pack(CopyFault),
    /// The tree of the image was not copied to the end.
    #[error("unpack: {0}")]
    Unpack(CopyFault),
    /// It is not answered who may do what.
    #[error("access: {0}")]
    Access(AccessFault),
    /// The serving ended early, or didn't begin.
    #[error("fuse: {0}")]
    Serve(ServeFault),
    /// What the script did, or what was served, may not last.
    #[error("unmount: EIO")]
    Unmount,
}

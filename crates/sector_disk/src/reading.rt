//! The sectors that a disk takes from its file.

ghost use Rattle.std.specs.Prelude.{◌≡◌, ◌≢◌, ◌<◌, length, IfOk, IfErr, IfSome};
ghost use Rattle.sector_disk.specs.Files.{HasSectors};
ghost use Rattle.sector_disk.specs.declared.file_disk.FileFault.TheVariants.{Exists};

use crate::sectors::Sectors;
use crate::{DiskFile, FileFault};
use std::alloc::Global;

/// The first sectors of a file, read through a buffer in pieces of its length.
pub fn read_sectors<F: DiskFile>(
    alloc: Global,
    file: &mut F,
    count: u32,
    buffer: &mut [[u8; 512]],
) -> Result<Sectors, FileFault>
    requires { 0 < length buffer.old }
    ensures same { F.held file.new ≡ F.held file.old }
    ensures len { IfOk result (λ sectors. length sectors.shown ≡ count) }
    ensures content { IfOk result (λ sectors. IfSome (F.held file.new) (HasSectors sectors.shown)) }
    ensures fault { IfErr result (λ fault. fault ≢ Exists) }
{
    let mut sectors = Sectors::zeros(alloc, count)?;
    let mut at = 0;
    while at < count {
        let len = buffer.len().min((count - at) as usize);
        let piece = &mut buffer[..len];
        if file.read_run(at, piece).is_err() {
            return Err(FileFault::Failed);
        }
        sectors.set_run(at, piece)?;
        at += len as u32;
    }
    Ok(sectors)
}

//! A sector has 512 bytes, each below 256: facts of its type, told to proofs.

ghost use Rattle.std.specs.Prelude.{ℕ, ◌<◌, get_or};
ghost use Rattle.sector_disk.specs.Disk.{IsWholeSector};

// Does nothing: tells a proof that bytes are below 256, a fact of their type.
fn tell_bytes(bytes: &[u8])
    ensures { (i : ℕ) → get_or bytes.now i 0 < 256 }
{
    let _count = bytes.len();
}

/// Does nothing: tells a proof that a sector has 512 bytes.
pub fn tell_whole(sector: &[u8; 512])
    ensures { IsWholeSector sector.now }
{
    tell_bytes(sector);
}

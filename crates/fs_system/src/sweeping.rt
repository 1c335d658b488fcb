//! What a mount does to files that a stop has left without a name.

ghost use Rattle.std.specs.Prelude.{◌≡◌, IfOk};
ghost use Rattle.fs_layout.specs.declared.geometry.Geometry.{Geometry as Parts};
ghost use Rattle.sector_disk.specs.Disk.{HasCause};
ghost use Rattle.sector_txn.specs.Stores.{present, disk_after};
ghost use Rattle.bit_alloc.specs.declared.bitmap.Bitmap.TheVariants.{Inodes};
ghost use Rattle.bit_alloc.specs.Bitmaps.{IsNumber};
ghost use Rattle.fs_model.specs.TreeChanges.{pruned};
ghost use Rattle.fs_model.specs.Stands.{room_of};
ghost use Rattle.fs_model.specs.Trees.{Tree};
ghost use Rattle.fs_images.specs.Standing.{EachStandsFor};
ghost use Rattle.fs_system.specs.Sweeping.{IsStored, HasTree, FreesNameless, KeepsTree};

use call_parts::leave;
use fs_layout::{Geometry, ROOT};
use sector_disk::Disk;
use sector_txn::Store;

// Frees inode `ino` where it is that of a file without a name. At `Err` a read or a commit has failed.
fn free_nameless<D: Disk>(store: Store<D>, geometry: Geometry, ino: u32) -> Result<Store<D>, D>
    requires number { IsNumber geometry Inodes ino }
    requires tree { (t : Tree) × HasTree geometry (present D.state store) (D.state store.disk) t }
    ensures frees { IfOk result (λ after.
        FreesNameless geometry ino (present D.state store) (D.state store.disk) (present D.state after) (D.state after.disk)) }
    ensures any_moment { KeepsTree geometry (present D.state store) (D.state store.disk) (D.state (disk_after result)) }
    ensures size { (D.state (disk_after result)).size ≡ (D.state store.disk).size }
    ensures cause { HasCause (D.state store.disk) (D.state (disk_after result)) result }
    ensures quiet { IfOk result (λ after. (D.state after.disk).failed_writes ≡ (D.state store.disk).failed_writes) }
{
    let mut txn = store.begin();
    match leave(&mut txn, geometry, ino, false) {
        Ok(()) => match txn.keep() {
            Ok(store) => Ok(store),
            Err(broken) => Err(broken.into_disk()),
        },
        Err(_) => Err(txn.drop_delta().into_disk()),
    }
}

// Makes stable what was kept. At `Err` the commit has failed.
fn make_stable<D: Disk>(store: Store<D>) -> Result<Store<D>, D>
    ensures kept { IfOk result (λ after. (p : Parts) (t : Tree) → HasTree p (present D.state store) (D.state store.disk) t
        → HasTree p (present D.state after) (D.state after.disk) t) }
    ensures lasting { IfOk result (λ after. (p : Parts) (t : Tree) → HasTree p (present D.state store) (D.state store.disk) t
        → EachStandsFor (room_of p) (D.state after.disk) t) }
    ensures any_moment { (p : Parts) → KeepsTree p (present D.state store) (D.state store.disk) (D.state (disk_after result)) }
    ensures size { (D.state (disk_after result)).size ≡ (D.state store.disk).size }
    ensures cause { HasCause (D.state store.disk) (D.state (disk_after result)) result }
    ensures quiet { IfOk result (λ after. (D.state after.disk).failed_writes ≡ (D.state store.disk).failed_writes) }
{
    match store.flush() {
        Ok(store) => Ok(store),
        Err(broken) => Err(broken.into_disk()),
    }
}

// Frees each inode but the root that is that of a file without a name, each in a commit of its own.
fn free_all_nameless<D: Disk>(store: Store<D>, geometry: Geometry) -> Result<Store<D>, D>
    requires tree { (t : Tree) × HasTree geometry (present D.state store) (D.state store.disk) t }
    ensures swept { IfOk result (λ after. (t : Tree) → HasTree geometry (present D.state store) (D.state store.disk) t
        → HasTree geometry (present D.state after) (D.state after.disk) (pruned t)) }
    ensures any_moment { KeepsTree geometry (present D.state store) (D.state store.disk) (D.state (disk_after result)) }
    ensures size { (D.state (disk_after result)).size ≡ (D.state store.disk).size }
    ensures cause { HasCause (D.state store.disk) (D.state (disk_after result)) result }
    ensures quiet { IfOk result (λ after. (D.state after.disk).failed_writes ≡ (D.state store.disk).failed_writes) }
{
    let mut store = store;
    for ino in ROOT + 1..geometry.inodes {
        let freed = free_nameless(store, geometry, ino)?;
        store = make_stable(freed)?;
    }
    Ok(store)
}

/// Frees each file without a name, in a commit of its own, and makes all stable. At `Err` a read or a commit has failed.
pub(crate) fn sweep<D: Disk>(store: Store<D>, geometry: Geometry) -> Result<Store<D>, D>
    requires tree { (t : Tree) × HasTree geometry (present D.state store) (D.state store.disk) t }

    // The tree is there without them.
    ensures swept { IfOk result (λ after. (t : Tree) → HasTree geometry (present D.state store) (D.state store.disk) t
        → IsStored (D.state after.disk).size geometry (present D.state after) (pruned t)) }

    // From `Ok` on a stop leaves what stands for it.
    ensures lasting { IfOk result (λ after. (t : Tree) → HasTree geometry (present D.state store) (D.state store.disk) t
        → EachStandsFor (room_of geometry) (D.state after.disk) (pruned t)) }

    // A stop at any moment of the call leaves what stands for the tree, but for files without names.
    ensures any_moment { KeepsTree geometry (present D.state store) (D.state store.disk) (D.state (disk_after result)) }

    ensures size { (D.state (disk_after result)).size ≡ (D.state store.disk).size }
    ensures cause { HasCause (D.state store.disk) (D.state (disk_after result)) result }
    ensures quiet { IfOk result (λ after. (D.state after.disk).failed_writes ≡ (D.state store.disk).failed_writes) }
{
    let freed = free_all_nameless(store, geometry)?;
    let stable = make_stable(freed)?;
    Ok(stable)
}

//! What a file system stands on: a store, until a commit fails.

ghost use Rattle.std.specs.Prelude.{◌≡◌, ℕ, Some};
ghost use Rattle.sector_disk.specs.Disk.{IsSame, ForgetsPast};
ghost use Rattle.fs_layout.specs.declared.geometry.Geometry.{Geometry};
ghost use Rattle.sector_txn.specs.Stores.{StoreView};
ghost use Rattle.call_parts.specs.BothTables.{Tables};
ghost use Rattle.fs_model.specs.States.{State};
ghost use Rattle.fs_system.specs.declared.base.Base.TheVariants.{Running};
ghost use Rattle.fs_system.specs.Mounting.{is_halted};
ghost use Rattle.fs_system.specs.Playing.{HasDisk};
ghost use Rattle.fs_system.specs.Seen.{IsOn, base_left, disk_in};

use crate::counted::CountedStore;
use redo_journal::Broken;
use sector_disk::{CrashDisk, Disk};
use std::mem;

/// What a file system stands on.
#[derive(Drop)]
pub(crate) enum Base<D: Disk> {
    /// A store, to which events happen.
    Running(CountedStore<D>),
    /// What a commit that failed has left. No event calls its disk any more.
    Halted(Broken<D>),
    /// Nothing, while an event happens to the store. No caller of a file system meets this.
    Taken,
}

impl<D: Disk> Base<D> {
    /// Whether a commit has failed.
    pub(crate) fn is_halted(&self) -> bool
        ensures { result ≡ is_halted self.now }
    {
        matches!(self, Base::Halted(_))
    }

    /// Its disk lets go of what it keeps of its past.
    pub(crate) fn forget_past(&mut self)
        ensures stays { (p : Geometry) (time : ℕ) (tables : Tables) (s : State)
            → IsOn D.state p time tables self.old s → IsOn D.state p time tables self.new s }
        ensures past { ForgetsPast (disk_in D.state self.old) (disk_in D.state self.new) }
    {
        match self {
            Base::Running(store) => store.forget(),
            Base::Halted(broken) => broken.forget(),
            Base::Taken => {}
        }
    }
}

impl<D: Disk + Drop> Base<D> {
    /// Takes the store, for one event. What the event leaves is to be put in its place.
    pub(crate) fn take(&mut self) -> CountedStore<D>
        requires { (store : StoreView D) × self.old ≡ Running store }
        ensures { self.old ≡ Running result }
    {
        match mem::replace(self, Base::Taken) {
            Base::Running(store) => store,
            Base::Halted(_) | Base::Taken => unreachable!(),
        }
    }

    /// Puts what an event leaves in the place of the store that it took: a store, or what a commit that failed has left.
    pub(crate) fn put(&mut self, left: Result<CountedStore<D>, Broken<D>>)
        ensures { self.new ≡ base_left left }
    {
        *self = match left {
            Ok(store) => Base::Running(store),
            Err(broken) => Base::Halted(broken),
        };
    }

    /// The disk as it is: what was done since the last sync may be lost at a stop.
    pub(crate) fn into_disk(self) -> D
        requires { (disk : D) × HasDisk self disk }
        ensures { HasDisk self result }
    {
        match self {
            Base::Running(store) => store.into_disk(),
            Base::Halted(broken) => broken.into_disk(),
            Base::Taken => unreachable!(),
        }
    }
}

impl<D: CrashDisk> Base<D> {
    /// Lets this many writes and syncs of the disk pass, and fails all later ones.
    pub(crate) fn arm(&mut self, passes: u64)
        ensures stays { (p : Geometry) (time : ℕ) (tables : Tables) (s : State)
            → IsOn D.state p time tables self.old s → IsOn D.state p time tables self.new s }
        ensures same { IsSame (disk_in D.state self.old) (disk_in D.state self.new) }
        ensures failures { (disk_in D.state self.new).failures ≡ (disk_in D.state self.old).failures }
        ensures armed { (disk : D) → HasDisk self.new disk → D.armed disk ≡ Some passes }
    {
        match self {
            Base::Running(store) => store.arm(passes),
            Base::Halted(broken) => broken.arm(passes),
            Base::Taken => {}
        }
    }
}

//! Callers of a transaction, proved from its contracts alone.

ghost use Rattle.std.specs.Prelude.{◌≡◌, ◌⊎◌, ◌≤◌, ◌<◌, ℕ, [], All, Contains, IfOk, OnOk, replicate};
ghost use Rattle.fs_layout.specs.Header.{log_end};
ghost use Rattle.redo_journal.specs.Meaning.{IsMapped, SameMap};
ghost use Rattle.redo_journal.specs.States.{header_at};
ghost use Rattle.sector_disk.specs.Disk.{HasCause};
ghost use Rattle.sector_txn.specs.Images.{LeavesOneOf};
ghost use Rattle.disk_tests.specs.Mixed.{mixed_content, with_mixed};
ghost use Rattle.sector_txn.specs.Sectors.{SameStore, PutsOnly, lacking};
ghost use Rattle.sector_txn.specs.Stores.{present, disk_after};

use redo_journal::Broken;
use sector_disk::{Disk, DiskFault};
use sector_txn::{Sectors, Store};

// Writes a sector that is like the first one, but for its first byte, which is that of the second one.
pub(super) fn mix<S: Sectors>(s: &mut S, first: u32, second: u32, at: u32) -> Result<(), DiskFault>
    requires first { IsMapped (S.state s.old).header first × (first < (S.state s.old).disk.size) }
    requires second { IsMapped (S.state s.old).header second × (second < (S.state s.old).disk.size) }
    requires at { (log_end (S.state s.old).header ≤ at) × (at < (S.state s.old).disk.size) }
    requires room { 0 < (S.state s.old).room }
    ensures written { OnOk result ((S.state s.new).sectors at ≡ mixed_content (S.state s.old).sectors first second) }
    ensures changes { OnOk result (PutsOnly (λ n. n ≡ at) [] 1 (S.state s.old) (S.state s.new)) }
    ensures store { SameStore (S.state s.old) (S.state s.new) }
    ensures cause { HasCause (S.state s.old).disk (S.state s.new).disk result }
{
    let mut content = [0; 512];
    let mut other = [0; 512];
    s.get(first, &mut content)?;
    s.get(second, &mut other)?;
    content[0] = other[0];
    s.put(at, &content);
    Ok(())
}

// Writes zeros into sectors, which may be named more than once and may have been put before.
pub(super) fn clear_all<S: Sectors>(s: &mut S, sectors: &[u32])
    requires part { All (λ n. (log_end (S.state s.old).header ≤ n) × (n < (S.state s.old).disk.size)) sectors.now }
    requires room { lacking (S.state s.old) sectors.now ≤ (S.state s.old).room }
    ensures cleared { (n : ℕ) → Contains sectors.now n → (S.state s.new).sectors n ≡ replicate 512 0 }
    ensures changes { PutsOnly (Contains sectors.now) sectors.now 0 (S.state s.old) (S.state s.new) }
{
    let zeros = [0; 512];
    for n in sectors {
        s.put(*n, &zeros);
    }
}

// `mix` as a call of its own: a stop at any moment leaves all of it or nothing.
pub(super) fn mix_whole<D: Disk>(
    store: Store<D>,
    first: u32,
    second: u32,
    at: u32,
) -> Result<Store<D>, Broken<D>>
    requires first { IsMapped (header_at (D.state store.disk).seen) first × (first < (D.state store.disk).size) }
    requires second { IsMapped (header_at (D.state store.disk).seen) second × (second < (D.state store.disk).size) }
    requires at { (log_end (header_at (D.state store.disk).seen) ≤ at) × (at < (D.state store.disk).size) }
    ensures map { let old = present D.state store in
        IfOk result (λ after. SameMap (present D.state after) old ⊎ SameMap (present D.state after) (with_mixed old first second at)) }
    ensures images { let old = present D.state store in
        LeavesOneOf old (with_mixed old first second at) (D.state store.disk) (D.state (disk_after result)) }
    ensures header { IfOk result (λ after. header_at (D.state after.disk).seen ≡ header_at (D.state store.disk).seen) }
    ensures failures { (D.state store.disk).failures ≤ (D.state (disk_after result)).failures }
{
    let mut txn = store.begin();
    match mix(&mut txn, first, second, at) {
        Ok(()) => txn.keep(),
        Err(DiskFault) => Ok(txn.drop_delta()),
    }
}

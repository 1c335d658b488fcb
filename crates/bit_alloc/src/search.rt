//! Where a search in a bitmap begins, so that sectors that were full lately aren't read at each call. Nothing is promised of it.

ghost use Rattle.std.specs.Prelude.{◌≤◌, ◌+◌};
ghost use Rattle.sector_txn.specs.Sectors.{IsUnchanged};

use crate::Bitmap;
use sector_txn::Sectors;

// In a bitmap of so few sectors each search begins where it is asked to.
const FEW_SECTORS: u32 = 16;

impl Bitmap {
    // Under this key it is left as a hint where a search goes on that was to begin at this sector.
    fn hint_key(self, from: u32) -> u64 {
        let of_bitmap: u32 = match self {
            Bitmap::Inodes => 0x8000_0000,
            Bitmap::Blocks => 0xc000_0000,
        };
        u64::from(from.wrapping_add(of_bitmap))
    }

    /// The sector, counted from the first of the bitmap's, with which a search begins that is to begin at this one: it or, where it was
    /// full lately with those behind it, one further on.
    pub(crate) fn first_sought<S: Sectors>(self, s: &S, from: u32, sectors: u32) -> u32
        ensures { result ≤ from + sectors }
    {
        if sectors <= FEW_SECTORS {
            return from;
        }
        match s.hint(self.hint_key(from)) {
            Some(found) if found < u64::from(sectors) => found as u32,
            _ => from,
        }
    }

    /// Leaves word that a search which is to begin at this sector goes on at that one: those before it were full.
    pub(crate) fn pass_by<S: Sectors>(self, s: &mut S, from: u32, next: u32, sectors: u32)
        ensures { IsUnchanged (S.state s.old) (S.state s.new) }
    {
        if sectors > FEW_SECTORS {
            s.leave_hint(self.hint_key(from), u64::from(next));
        }
    }
}

//! A transaction that counts what is asked of it.

ghost use Rattle.std.specs.Prelude.{◌≡◌};

use sector_disk::DiskFault;
use sector_txn::Sectors;

/// A transaction that counts its reads and puts. Whoever measures a call sets both counts to 0 before it.
pub struct Counted<S> {
    pub inner: S,
    pub gets: u32,
    pub puts: u32,
}

impl<S: Sectors> Counted<S> {
    /// With nothing counted yet.
    pub fn new(inner: S) -> Self
        ensures { result.inner ≡ inner }
    {
        Counted {
            inner,
            gets: 0,
            puts: 0,
        }
    }

    /// The transaction itself.
    pub fn into_inner(self) -> S
        ensures { result ≡ self.inner }
    {
        let Counted {
            inner,
            gets: _,
            puts: _,
        } = self;
        inner
    }
}

impl<S: Sectors> Sectors for Counted<S> {
    ghost state = { λ c. S.state c.inner };

    fn get(&mut self, n: u32, to: &mut [u8; 512]) -> Result<(), DiskFault> {
        self.gets = self.gets.saturating_add(1);
        self.inner.get(n, to)
    }

    fn put(&mut self, n: u32, from: &[u8; 512]) {
        self.puts = self.puts.saturating_add(1);
        self.inner.put(n, from);
    }

    fn room(&self) -> usize {
        self.inner.room()
    }
}

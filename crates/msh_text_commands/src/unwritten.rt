ghost use Rattle.std.specs.Prelude.{◌≡◌, ◌↔◌, [], drop, IsTrue};

use std::marker::Model;
use vfs_base::Bytes;

/// The bytes that a file has still to take. They are kept once; a short write moves the place where they begin.
#[derive(Drop)]
pub struct Unwritten {
    bytes: Bytes,
    // How many of the bytes were written.
    written: usize,
}

impl Model for Unwritten {
    ghost use Rattle.std.specs.Prelude.{ℕ, ◌≤◌, drop, length, List};

    ghost Value = { List ℕ };

    ghost view = { λ it. drop it.written it.bytes };

    ghost invariant = { λ it. it.written ≤ length it.bytes };
}

impl Unwritten {
    pub fn new(bytes: Bytes) -> Unwritten
        ensures { result ≡ bytes }
    {
        Unwritten { bytes, written: 0 }
    }

    pub fn as_slice(&self) -> &[u8]
        ensures { result.now ≡ self.now }
    {
        &self.bytes.as_slice()[self.written..]
    }

    pub fn is_empty(&self) -> bool
        ensures { IsTrue result ↔ (self.now ≡ []) }
    {
        self.as_slice().is_empty()
    }

    /// So many of the bytes were written, or all where they are fewer.
    #[tactic(auto, using(crate::proofs::Advancing::advanced))]
    pub fn advance(&mut self, n: u64)
        ensures { self.new ≡ drop n self.old }
    {
        let left = self.bytes.len() - self.written;
        self.written += left.min(n as usize);
    }
}

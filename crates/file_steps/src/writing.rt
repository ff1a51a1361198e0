//! Bytes that are written at their offset.

ghost use Rattle.std.specs.Prelude.{◌≡◌, ◌+◌, ◌-◌, ◌<◌, ◌≤◌, ◌^◌, ◌++◌, length, take, drop, replicate, OnOk, OnErr};
ghost use Rattle.vfs_model.specs.FileStep.{written_at};

use vfs_base::{Bytes, NoMemory};

/// Puts a piece at an offset. A gap before the piece is zeros; no piece makes no gap.
#[tactic(auto, using(crate::proofs::WritingLemmas::written_padded))]
pub fn write_at(bytes: &mut Bytes, off: u64, piece: &[u8]) -> Result<(), NoMemory>
    requires { off + length piece.now < 2 ^ 64 }
    ensures ok { OnOk result (bytes.new ≡ written_at off piece.now bytes.old) }
    ensures err { OnErr result (bytes.new ≡ bytes.old) }
{
    if piece.is_empty() {
        return Ok(());
    }
    let end = bytes.len().max(off as usize + piece.len());
    pad(bytes, end)?;
    put_piece(bytes, off as usize, piece);
    Ok(())
}

fn pad(bytes: &mut Bytes, len: usize) -> Result<(), NoMemory>
    requires { length bytes.old ≤ len }
    ensures ok { OnOk result (bytes.new ≡ bytes.old ++ replicate (len - length bytes.old) 0) }
    ensures err { OnErr result (bytes.new ≡ bytes.old) }
{
    bytes.resize(len, 0)
}

fn put_piece(bytes: &mut Bytes, off: usize, piece: &[u8])
    requires { off + length piece.now ≤ length bytes.old }
    ensures { bytes.new ≡ take off bytes.old ++ piece.now ++ drop (off + length piece.now) bytes.old }
{
    copy_piece(bytes.as_mut_slice(), off, piece);
}

fn copy_piece(bytes: &mut [u8], off: usize, piece: &[u8])
    requires { off + length piece.now ≤ length bytes.old }
    ensures { bytes.new ≡ take off bytes.old ++ piece.now ++ drop (off + length piece.now) bytes.old }
{
    bytes[off..off + piece.len()].copy_from_slice(piece);
}

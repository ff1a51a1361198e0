//! Transfers between bytes and the pages of a file, page by page.

ghost use Rattle.std.specs.Prelude.{◌≡◌, ◌<◌, ◌≤◌, ◌+◌, ◌-◌, ◌*◌, ◌^◌, true, false, length, min, replicate, IsOk, OnOk, OnErr, IfErr};
ghost use Rattle.vfs_base.specs.declared.limits.TheConstants.{PAGE_SIZE};
ghost use Rattle.vfs_model.specs.FailedCalls.{bytes_before};
ghost use Rattle.vfs_model.specs.Leaving.{is_starved};
ghost use Rattle.page_cache.specs.AddressSpace.{Completes, KeepsPages, Stops, reclaiming, touching, view, writing_back};
ghost use Rattle.page_cache.specs.Framed.{AreCounted};
ghost use Rattle.cell_file.specs.CellFile.{is_within, moved_under};
ghost use Rattle.cell_file.specs.Moves.{Runs, at_once, editing, editing_pages, ending, mark_of, reading_pages, truncating};
ghost use Rattle.cell_file.specs.Parts.{ClearsEnd, CutsUnder, has_end, EditsPage, EditsUnder, MeetsPage, Reads, ReadsPage};

use page_cache::{AddressSpace, CacheFault};
use vfs_base::{Mark, PAGE_SIZE};
use vfs_outside::Block;

/// Copies the bytes of the pages from an offset on to `out`.
pub fn read_pages<B: Block>(
    space: &mut AddressSpace,
    device: &mut B,
    off: u64,
    out: &mut [u8],
) -> Mark
    requires device { B.pages device.old ≡ space.old.pages }
    requires inside { off + length out.old ≤ PAGE_SIZE * space.old.pages }
    requires bounded { space.old.pages < 2 ^ 16 }
    ensures within { is_within result (length out.old) ≡ true }
    ensures runs { Runs (reading_pages off (length out.old))
        (view B.pages B.contents B.counts space.old device.old) (view B.pages B.contents B.counts space.new device.new) result }
    ensures same { KeepsPages
        (view B.pages B.contents B.counts space.old device.old) (view B.pages B.contents B.counts space.new device.new) }
    ensures read { Reads off result out.new (view B.pages B.contents B.counts space.old device.old) }
    ensures pages { space.new.pages ≡ space.old.pages }
{
    know_counts(device);
    if out.is_empty() {
        return Mark::Clear;
    }
    let first = off / PAGE_SIZE;
    let last = (off + out.len() as u64 - 1) / PAGE_SIZE;
    for page in first..last + 1 {
        if let Err(fault) = read_page(space, device, page as u16, off, out) {
            return mark_of(fault, bytes_before(off, page));
        }
    }
    Mark::Clear
}

/// Puts the piece into the pages from an offset on.
pub fn edit_pages<B: Block>(
    space: &mut AddressSpace,
    device: &mut B,
    off: u64,
    piece: &[u8],
) -> Mark
    requires device { B.pages device.old ≡ space.old.pages }
    requires inside { off + length piece.now ≤ PAGE_SIZE * space.old.pages }
    requires bounded { space.old.pages < 2 ^ 16 }
    ensures within { is_within result (length piece.now) ≡ true }
    ensures runs { Runs (editing_pages off (length piece.now))
        (view B.pages B.contents B.counts space.old device.old) (view B.pages B.contents B.counts space.new device.new) result }
    ensures edits { EditsUnder off piece.now result
        (view B.pages B.contents B.counts space.old device.old) (view B.pages B.contents B.counts space.new device.new) }
    ensures pages { space.new.pages ≡ space.old.pages }
{
    know_counts(device);
    if piece.is_empty() {
        return Mark::Clear;
    }
    let first = off / PAGE_SIZE;
    let last = (off + piece.len() as u64 - 1) / PAGE_SIZE;
    for page in first..last + 1 {
        if let Err(fault) = edit_page(space, device, page as u16, off, piece) {
            return mark_of(fault, bytes_before(off, page));
        }
    }
    Mark::Clear
}

/// Cuts the pages of a file of so many bytes to a shorter length: the bytes behind it are zeros then. Where that is
/// stopped, the bytes are as before.
pub fn truncate_pages<B: Block>(
    space: &mut AddressSpace,
    device: &mut B,
    size: u64,
    len: u64,
) -> Mark
    requires device { B.pages device.old ≡ space.old.pages }
    requires shorter { len < size }
    requires inside { size ≤ PAGE_SIZE * space.old.pages }
    requires bounded { space.old.pages < 2 ^ 16 }
    ensures within { is_within result 0 ≡ true }
    ensures runs { Runs (truncating size len)
        (view B.pages B.contents B.counts space.old device.old) (view B.pages B.contents B.counts space.new device.new) result }
    ensures cuts { CutsUnder result len
        (view B.pages B.contents B.counts space.old device.old) (view B.pages B.contents B.counts space.new device.new) }
    ensures sure { len ≡ 0 → is_starved result ≡ false }
    ensures pages { space.new.pages ≡ space.old.pages }
{
    if let Err(fault) = clear_end(space, device, len) {
        return mark_of(fault, 0);
    }
    space.cut(((len + PAGE_SIZE - 1) / PAGE_SIZE) as u16);
    Mark::Clear
}

/// Writes the dirty pages.
pub fn clean_pages<B: Block>(space: &mut AddressSpace, device: &mut B) -> Mark
    requires device { B.pages device.old ≡ space.old.pages }
    ensures within { is_within result 0 ≡ true }
    ensures runs { Runs (at_once writing_back)
        (view B.pages B.contents B.counts space.old device.old) (view B.pages B.contents B.counts space.new device.new) result }
    ensures same { KeepsPages
        (view B.pages B.contents B.counts space.old device.old) (view B.pages B.contents B.counts space.new device.new) }
    ensures sure { is_starved result ≡ false }
    ensures pages { space.new.pages ≡ space.old.pages }
{
    match space.write_back(device) {
        Ok(()) => Mark::Clear,
        Err(fault) => mark_of(fault, 0),
    }
}

/// Lets pages leave memory until 8 are there.
pub fn shrink_pages<B: Block>(space: &mut AddressSpace, device: &mut B) -> Mark
    requires device { B.pages device.old ≡ space.old.pages }
    ensures within { is_within result 0 ≡ true }
    ensures runs { Runs (at_once reclaiming)
        (view B.pages B.contents B.counts space.old device.old) (view B.pages B.contents B.counts space.new device.new) result }
    ensures same { KeepsPages
        (view B.pages B.contents B.counts space.old device.old) (view B.pages B.contents B.counts space.new device.new) }
    ensures sure { is_starved result ≡ false }
    ensures pages { space.new.pages ≡ space.old.pages }
{
    match space.shrink(device) {
        Ok(()) => Mark::Clear,
        Err(fault) => mark_of(fault, 0),
    }
}

// Makes the bytes from a length on zeros in the page where the length lies, if there are any.
fn clear_end<B: Block>(space: &mut AddressSpace, device: &mut B, len: u64) -> Result<(), CacheFault>
    requires device { B.pages device.old ≡ space.old.pages }
    requires inside { len < PAGE_SIZE * space.old.pages }
    requires bounded { space.old.pages < 2 ^ 16 }
    ensures ok { OnOk result (Completes (ending len)
        (view B.pages B.contents B.counts space.old device.old) (view B.pages B.contents B.counts space.new device.new)) }
    ensures stops { IfErr result (Stops (ending len)
        (view B.pages B.contents B.counts space.old device.old) (view B.pages B.contents B.counts space.new device.new)) }
    ensures clears { OnOk result (ClearsEnd len
        (view B.pages B.contents B.counts space.old device.old) (view B.pages B.contents B.counts space.new device.new)) }
    ensures same { OnErr result (KeepsPages
        (view B.pages B.contents B.counts space.old device.old) (view B.pages B.contents B.counts space.new device.new)) }
    ensures sure { len ≡ 0 → IsOk result }
    ensures pages { space.new.pages ≡ space.old.pages }
    ensures counted { AreCounted (B.counts device.new) }
{
    know_counts(device);
    if !has_end(space, len) {
        return Ok(());
    }
    let page = (len / PAGE_SIZE) as u16;
    let at = (len % PAGE_SIZE) as u16;
    space.touch(device, page)?;
    space.edit(page, at, zeros(PAGE_SIZE as usize - usize::from(at)));
    know_counts(device);
    Ok(())
}

// Whether a file of this length ends within a page that is there.
fn has_end(space: &AddressSpace, len: u64) -> bool
    requires inside { len < PAGE_SIZE * space.now.pages }
    requires bounded { space.now.pages < 2 ^ 16 }
    ensures { result ≡ has_end len space.now }
{
    len % PAGE_SIZE != 0 && space.is_present((len / PAGE_SIZE) as u16)
}

// So many zeros, a page of them at most.
#[tactic(auto, using(crate::proofs::SizedBytes::some_zeros))]
fn zeros(count: usize) -> &'static [u8]
    requires { count ≤ PAGE_SIZE }
    ensures { result.now ≡ replicate count 0 }
{
    const PAGE: [u8; PAGE_SIZE as usize] = [0; PAGE_SIZE as usize];
    &PAGE[..count]
}

// Brings a page in, and copies the bytes of the transfer to `out` that lie in it.
fn read_page<B: Block>(
    space: &mut AddressSpace,
    device: &mut B,
    page: u16,
    off: u64,
    out: &mut [u8],
) -> Result<(), CacheFault>
    requires device { B.pages device.old ≡ space.old.pages }
    requires page { page < space.old.pages }
    requires meets { MeetsPage off (length out.old) page }
    ensures ok { OnOk result (Completes (touching page)
        (view B.pages B.contents B.counts space.old device.old) (view B.pages B.contents B.counts space.new device.new)) }
    ensures stops { IfErr result (Stops (touching page)
        (view B.pages B.contents B.counts space.old device.old) (view B.pages B.contents B.counts space.new device.new)) }
    ensures same { KeepsPages
        (view B.pages B.contents B.counts space.old device.old) (view B.pages B.contents B.counts space.new device.new) }
    ensures read { OnOk result (ReadsPage off page out.old out.new (view B.pages B.contents B.counts space.old device.old)) }
    ensures err { OnErr result (out.new ≡ out.old) }
    ensures pages { space.new.pages ≡ space.old.pages }
{
    space.touch(device, page)?;
    let part = part_in(page, off, out.len());
    space.copy_out(page, part.at, &mut out[part.from..part.to]);
    Ok(())
}

// Brings a page in, and puts the bytes of the piece there that lie in it.
fn edit_page<B: Block>(
    space: &mut AddressSpace,
    device: &mut B,
    page: u16,
    off: u64,
    piece: &[u8],
) -> Result<(), CacheFault>
    requires device { B.pages device.old ≡ space.old.pages }
    requires page { page < space.old.pages }
    requires meets { MeetsPage off (length piece.now) page }
    ensures ok { OnOk result (Completes (editing page)
        (view B.pages B.contents B.counts space.old device.old) (view B.pages B.contents B.counts space.new device.new)) }
    ensures stops { IfErr result (Stops (editing page)
        (view B.pages B.contents B.counts space.old device.old) (view B.pages B.contents B.counts space.new device.new)) }
    ensures edits { OnOk result (EditsPage off page piece.now
        (view B.pages B.contents B.counts space.old device.old) (view B.pages B.contents B.counts space.new device.new)) }
    ensures same { OnErr result (KeepsPages
        (view B.pages B.contents B.counts space.old device.old) (view B.pages B.contents B.counts space.new device.new)) }
    ensures pages { space.new.pages ≡ space.old.pages }
{
    space.touch(device, page)?;
    let part = part_in(page, off, piece.len());
    space.edit(page, part.at, &piece[part.from..part.to]);
    Ok(())
}

// The bytes of a transfer that lie in one page.
#[derive(Clone, Copy)]
struct Part {
    // Which of the transfer's bytes they are.
    from: usize,
    to: usize,
    // Where in the page they begin.
    at: u16,
}

// The bytes of a transfer of so many from an offset on that lie in the page.
fn part_in(page: u16, off: u64, count: usize) -> Part
    requires meets { MeetsPage off count page }
    ensures from { result.from ≡ bytes_before off page }
    ensures to { result.to ≡ min count (bytes_before off (page + 1)) }
    ensures at { result.at ≡ off - PAGE_SIZE * page }
    ensures fits { result.at + (result.to - result.from) ≤ PAGE_SIZE }
    ensures order { result.from ≤ result.to }
{
    let start = PAGE_SIZE * u64::from(page);
    let from = start.saturating_sub(off) as usize;
    let to = count.min((start + PAGE_SIZE - off) as usize);
    let at = off.saturating_sub(start) as u16;
    Part { from, to, at }
}

// How many bytes of a transfer from an offset on lie in the pages before this one.
fn bytes_before(off: u64, page: u64) -> u64
    requires { page < 2 ^ 16 }
    ensures { result ≡ bytes_before off page }
{
    (PAGE_SIZE * page).saturating_sub(off)
}

/// The mark of a step that was stopped so when it had moved so many bytes.
pub fn mark_of(fault: CacheFault, moved: u64) -> Mark
    ensures { result ≡ mark_of fault moved }
{
    match fault {
        CacheFault::DeviceFault => Mark::Fault { n: moved },
        CacheFault::NoMemory => Mark::NoMem { n: moved },
    }
}

/// What holds of every count is known of a device's counts only from a call.
pub fn know_counts<B: Block>(device: &B)
    ensures { AreCounted (B.counts device.now) }
{
    let _counts = device.counts();
}

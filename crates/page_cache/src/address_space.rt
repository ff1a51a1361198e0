ghost use Rattle.std.specs.Prelude.{◌≡◌, ◌<◌, ◌+◌, ◌-◌, ◌≤◌, ◌||◌, ℕ, true, false, List, [], length, map, filter, take, drop, nat_lt, replicate, slice_set, OnOk, OnErr, IfOk, IfErr, IfSome, IsOk};
ghost use Rattle.vfs_base.specs.declared.limits.TheConstants.{CELL_PAGES_MAX, PAGE_SIZE, RESIDENT_PAGES};
ghost use Rattle.vfs_model.specs.Cache.{is_resident, is_stored};
ghost use Rattle.vfs_model.specs.PageList.{CachedPage, device_bytes};
ghost use Rattle.page_cache.specs.StoredSet.{pages_in};
ghost use Rattle.page_cache.specs.AddressSpace.{Completes, IsCurrent, KeepsPages, Stops, StopsAt, cache_in, file_pages, view, page_of, reclaiming, space_of, touching, writing_back};
ghost use Rattle.page_cache.specs.Framed.{AreCounted, SettlesEnd, cleaning, evicting, reading, seen, writing_end};
ghost use Rattle.page_cache.specs.Resident.{bytes_in, cleaned, edited, holds_page, spliced};
ghost use Rattle.page_cache.specs.declared.cache_fault.CacheFault.TheVariants as fault;

use crate::cache_fault::CacheFault;
use crate::page_set::PageSet;
use crate::resident_pages::ResidentPages;
use std::alloc::Global;
use std::marker::Model;
use vfs_base::{CELL_PAGES_MAX, NoMemory, PAGE_SIZE, RECLAIM_TARGET, RESIDENT_PAGES};
use vfs_outside::{Block, Failed};

/// The pages of one file on a cell: at most 32 of them in memory, and which of them lie on the cell's
/// block device. A page that is neither in memory nor on the device is zeros.
///
/// A call that takes the device is for the file's own device, which has the cell's pages.
#[derive(Drop)]
pub struct AddressSpace {
    pages: u16,
    resident: ResidentPages,
    stored: PageSet,
    // The memory of one page, into which the next one comes that another leaves for.
    frame: Vec<u8>,
}

impl Model for AddressSpace {
    ghost use Rattle.page_cache.specs.AddressSpace.{AddressSpace as Space};
    ghost use Rattle.page_cache.specs.Framed.{IsFramed, seen};

    ghost Value = { Space };

    ghost view = { λ a. seen a.pages a.resident a.stored };

    ghost invariant = { λ a. IsFramed a.pages a.resident a.frame.items };
}

impl AddressSpace {
    /// No page in memory, of so many, 1024 at most; the stored ones are the bits of the set: bit i says
    /// that page i lies on the device.
    ///
    /// # Errors
    /// `NoMemory` where there is none for the places of 32 pages and for one page more.
    pub fn new(alloc: Global, pages: u16, stored: [u64; 16]) -> Result<AddressSpace, NoMemory>
        requires { pages ≤ CELL_PAGES_MAX }
        ensures { IfOk result (λ space. space ≡ record { pages = pages; resident = []; stored = pages_in stored }) }
    {
        let resident = ResidentPages::new(alloc)?;
        let frame = new_frame(alloc)?;
        let stored = PageSet::from_words(stored);
        Ok(AddressSpace {
            pages,
            resident,
            stored,
            frame,
        })
    }

    /// Brings the page into memory, in front of the others, with its bytes: those on the device where it
    /// is stored there, and else zeros. Where 32 others are in memory, the last of them leaves; it
    /// is written before, where it is dirty. A page that is in memory needs none.
    ///
    /// # Errors
    /// `DeviceFault` where a call of the device failed. Where that was the write, nothing changed; where
    /// it was the read, the page that left is gone, and stored. `NoMemory` where there was none for one
    /// page more: every page of the file is as before, and one may have been written.
    pub fn touch<B: Block>(&mut self, device: &mut B, page: u16) -> Result<(), CacheFault>
        requires device { B.pages device.old ≡ self.old.pages }
        requires page { page < self.old.pages }
        ensures ok { OnOk result (Completes (touching page)
            (view B.pages B.contents B.counts self.old device.old) (view B.pages B.contents B.counts self.new device.new)) }
        ensures stops { IfErr result (Stops (touching page)
            (view B.pages B.contents B.counts self.old device.old) (view B.pages B.contents B.counts self.new device.new)) }
        ensures there { OnOk result (holds_page self.new.resident page ≡ true) }
        ensures memory { holds_page self.old.resident page ≡ true → IsOk result }
        ensures same { KeepsPages
            (view B.pages B.contents B.counts self.old device.old) (view B.pages B.contents B.counts self.new device.new) }
        ensures pages { self.new.pages ≡ self.old.pages }
        ensures device { B.pages device.new ≡ B.pages device.old }
    {
        if self.resident.promote(page) {
            know_counts(device);
            return Ok(());
        }
        if self.resident.len() < RESIDENT_PAGES {
            self.add(device, page)
        } else {
            self.replace_last(device, page)
        }
    }

    /// Puts the piece into a page in memory, from a place in the page on. The page is dirty then.
    pub fn edit(&mut self, page: u16, at: u16, piece: &[u8])
        requires there { holds_page self.old.resident page ≡ true }
        requires fits { at + length piece.now ≤ PAGE_SIZE }
        ensures edited { self.new ≡ record self.old { resident = map (edited page at piece.now) self.old.resident } }
        ensures current { (told : List (List ℕ)) → IsCurrent self.old told → IsCurrent self.new told }
        ensures pages { (told : List (List ℕ)) → page < self.old.pages →
            file_pages self.new told ≡ slice_set (file_pages self.old told) page (spliced at piece.now (bytes_in self.old.resident page)) }
    {
        self.resident.edit(page, at, piece);
    }

    /// Copies bytes of a page in memory, from a place in the page on.
    pub fn copy_out(&self, page: u16, at: u16, out: &mut [u8])
        requires there { holds_page self.now.resident page ≡ true }
        requires fits { at + length out.old ≤ PAGE_SIZE }
        ensures { out.new ≡ take (length out.old) (drop at (bytes_in self.now.resident page)) }
    {
        let from = usize::from(at);
        out.copy_from_slice(&self.resident.bytes(page)[from..from + out.len()]);
    }

    /// Writes the dirty pages, in rising order; each is clean and stored then. Takes no memory.
    ///
    /// # Errors
    /// `DeviceFault` at the first write that fails: that page and those behind it stay dirty.
    pub fn write_back<B: Block>(&mut self, device: &mut B) -> Result<(), CacheFault>
        requires device { B.pages device.old ≡ self.old.pages }
        ensures ok { OnOk result (Completes writing_back
            (view B.pages B.contents B.counts self.old device.old) (view B.pages B.contents B.counts self.new device.new)) }
        ensures stops { OnErr result (StopsAt writing_back
            (view B.pages B.contents B.counts self.old device.old) (view B.pages B.contents B.counts self.new device.new)) }
        ensures fault { IfErr result (λ why. why ≡ fault.DeviceFault) }
        ensures same { KeepsPages
            (view B.pages B.contents B.counts self.old device.old) (view B.pages B.contents B.counts self.new device.new) }
        ensures pages { self.new.pages ≡ self.old.pages }
        ensures device { B.pages device.new ≡ B.pages device.old }
    {
        know_counts(device);
        let mut dirty = self.resident.dirty();
        while let Some(page) = dirty.pop_first() {
            self.clean(device, page)?;
        }
        Ok(())
    }

    /// Lets pages leave until 8 are in memory, the last one first; a dirty one is written before. Takes
    /// no memory.
    ///
    /// # Errors
    /// `DeviceFault` at the first write that fails: that page stays.
    pub fn shrink<B: Block>(&mut self, device: &mut B) -> Result<(), CacheFault>
        requires device { B.pages device.old ≡ self.old.pages }
        ensures ok { OnOk result (Completes reclaiming
            (view B.pages B.contents B.counts self.old device.old) (view B.pages B.contents B.counts self.new device.new)) }
        ensures stops { OnErr result (StopsAt reclaiming
            (view B.pages B.contents B.counts self.old device.old) (view B.pages B.contents B.counts self.new device.new)) }
        ensures fault { IfErr result (λ why. why ≡ fault.DeviceFault) }
        ensures same { KeepsPages
            (view B.pages B.contents B.counts self.old device.old) (view B.pages B.contents B.counts self.new device.new) }
        ensures pages { self.new.pages ≡ self.old.pages }
        ensures device { B.pages device.new ≡ B.pages device.old }
    {
        know_counts(device);
        while RECLAIM_TARGET < self.resident.len() {
            self.evict_last(device)?;
        }
        Ok(())
    }

    /// Forgets the pages from this one on, unwritten: they are neither in memory nor stored then. Takes no
    /// memory.
    pub fn cut(&mut self, keep: u16)
        ensures cut { self.new ≡ record self.old {
          resident = filter (λ cached. nat_lt cached.page keep) self.old.resident;
          stored = filter (λ page. nat_lt page keep) self.old.stored;
        } }
        ensures current { (told : List (List ℕ)) → IsCurrent self.old told → IsCurrent self.new told }
    {
        self.resident.cut(keep);
        self.stored.cut(keep);
    }

    /// Whether the page is in memory or on the device; one that is neither is zeros. The cell has the
    /// page.
    pub fn is_present(&self, page: u16) -> bool
        requires { page < self.now.pages }
        ensures { result ≡ (is_resident (cache_in self.now) page || is_stored (cache_in self.now) page) }
    {
        self.resident.contains(page) || self.stored.contains(page)
    }

    /// The stored pages: bit i says that page i lies on the device.
    pub fn stored(&self) -> [u64; 16]
        ensures { pages_in result ≡ self.now.stored }
    {
        self.stored.words()
    }
}

impl AddressSpace {
    // Brings a page in that is not in memory, where there is room for it.
    fn add<B: Block>(&mut self, device: &mut B, page: u16) -> Result<(), CacheFault>
        requires device { B.pages device.old ≡ self.old.pages }
        requires page { page < self.old.pages }
        requires absent { holds_page self.old.resident page ≡ false }
        requires room { length self.old.resident < RESIDENT_PAGES }
        ensures ok { OnOk result (Completes (touching page)
            (view B.pages B.contents B.counts self.old device.old) (view B.pages B.contents B.counts self.new device.new)) }
        ensures stops { IfErr result (Stops (touching page)
            (view B.pages B.contents B.counts self.old device.old) (view B.pages B.contents B.counts self.new device.new)) }
        ensures same { KeepsPages
            (view B.pages B.contents B.counts self.old device.old) (view B.pages B.contents B.counts self.new device.new) }
        ensures pages { self.new.pages ≡ self.old.pages }
        ensures there { OnOk result (holds_page self.new.resident page ≡ true) }
        ensures device { B.pages device.new ≡ B.pages device.old }
    {
        know_counts(device);
        let mut bytes = new_frame(*self.frame.allocator())?;
        load(device, &self.stored, page, &mut bytes)?;
        self.resident.add(page, bytes)?;
        Ok(())
    }

    // Brings a page in that is not in memory, for which the last of 32 pages leaves.
    fn replace_last<B: Block>(&mut self, device: &mut B, page: u16) -> Result<(), CacheFault>
        requires device { B.pages device.old ≡ self.old.pages }
        requires page { page < self.old.pages }
        requires absent { holds_page self.old.resident page ≡ false }
        requires full { length self.old.resident ≡ RESIDENT_PAGES }
        ensures ok { OnOk result (Completes (touching page)
            (view B.pages B.contents B.counts self.old device.old) (view B.pages B.contents B.counts self.new device.new)) }
        ensures stops { IfErr result (Stops (touching page)
            (view B.pages B.contents B.counts self.old device.old) (view B.pages B.contents B.counts self.new device.new)) }
        ensures same { KeepsPages
            (view B.pages B.contents B.counts self.old device.old) (view B.pages B.contents B.counts self.new device.new) }
        ensures pages { self.new.pages ≡ self.old.pages }
        ensures there { OnOk result (holds_page self.new.resident page ≡ true) }
        ensures device { B.pages device.new ≡ B.pages device.old }
    {
        self.write_last(device)?;
        if load(device, &self.stored, page, &mut self.frame).is_err() {
            self.resident.drop_last();
            return Err(CacheFault::DeviceFault);
        }
        self.resident.replace_last(page, &mut self.frame)?;
        Ok(())
    }

    // Lets the last page go. It is written before, where it is dirty; where that fails, it stays.
    fn evict_last<B: Block>(&mut self, device: &mut B) -> Result<(), Failed>
        requires device { B.pages device.old ≡ self.old.pages }
        ensures ok { OnOk result (Completes evicting
            (view B.pages B.contents B.counts self.old device.old) (view B.pages B.contents B.counts self.new device.new)) }
        ensures stops { OnErr result (StopsAt evicting
            (view B.pages B.contents B.counts self.old device.old) (view B.pages B.contents B.counts self.new device.new)) }
        ensures same { KeepsPages
            (view B.pages B.contents B.counts self.old device.old) (view B.pages B.contents B.counts self.new device.new) }
        ensures pages { self.new.pages ≡ self.old.pages }
        ensures fewer { OnOk result (length self.new.resident ≡ length self.old.resident - 1) }
        ensures device { B.pages device.new ≡ self.old.pages }
        ensures counted { AreCounted (B.counts device.new) }
    {
        self.write_last(device)?;
        self.resident.drop_last();
        Ok(())
    }

    // Writes the last page, where it is dirty, and it is stored then.
    fn write_last<B: Block>(&mut self, device: &mut B) -> Result<(), Failed>
        requires device { B.pages device.old ≡ self.old.pages }
        ensures ok { OnOk result (Completes writing_end
            (view B.pages B.contents B.counts self.old device.old) (view B.pages B.contents B.counts self.new device.new)) }
        ensures stops { OnErr result (StopsAt writing_end
            (view B.pages B.contents B.counts self.old device.old) (view B.pages B.contents B.counts self.new device.new)) }
        ensures counted { AreCounted (B.counts device.new) }
        ensures settles { OnOk result (SettlesEnd
            (view B.pages B.contents B.counts self.old device.old) (view B.pages B.contents B.counts self.new device.new)) }
        ensures err { OnErr result (self.new ≡ self.old) }
        ensures device { B.pages device.new ≡ self.old.pages }
        ensures contents { OnErr result (B.contents device.new ≡ B.contents device.old) }
        ensures resident { self.new.resident ≡ self.old.resident }
        ensures pages { self.new.pages ≡ self.old.pages }
    {
        know_counts(device);
        if let Some((page, bytes)) = self.resident.dirty_last() {
            device.write_page(page, bytes)?;
            self.stored.insert(page);
        }
        Ok(())
    }

    // Writes a page in memory; it is clean and stored then.
    fn clean<B: Block>(&mut self, device: &mut B, page: u16) -> Result<(), Failed>
        requires device { B.pages device.old ≡ self.old.pages }
        requires there { holds_page self.old.resident page ≡ true }
        ensures ok { OnOk result (Completes (cleaning page)
            (view B.pages B.contents B.counts self.old device.old) (view B.pages B.contents B.counts self.new device.new)) }
        ensures stops { OnErr result (StopsAt (cleaning page)
            (view B.pages B.contents B.counts self.old device.old) (view B.pages B.contents B.counts self.new device.new)) }
        ensures same { KeepsPages
            (view B.pages B.contents B.counts self.old device.old) (view B.pages B.contents B.counts self.new device.new) }
        ensures device { B.pages device.new ≡ self.old.pages }
        ensures resident { OnOk result (self.new.resident ≡ map (cleaned page) self.old.resident) }
        ensures counted { AreCounted (B.counts device.new) }
        ensures pages { self.new.pages ≡ self.old.pages }
    {
        know_counts(device);
        device.write_page(page, self.resident.bytes(page))?;
        self.stored.insert(page);
        self.resident.clean(page);
        Ok(())
    }
}

// What holds of every count is known of a device's counts only from a call.
fn know_counts<B: Block>(device: &B)
    ensures { AreCounted (B.counts device.now) }
{
    let _counts = device.counts();
}

// The memory of one page, with zeros.
fn new_frame(alloc: Global) -> Result<Vec<u8>, NoMemory>
    ensures { IfOk result (λ frame. frame.items ≡ replicate PAGE_SIZE 0) }
{
    Ok(vec![in alloc; 0u8; PAGE_SIZE as usize]?)
}

// The bytes of a page that is not in memory: those on the device where it is stored there, and else zeros.
fn load<B: Block>(
    device: &mut B,
    stored: &PageSet,
    page: u16,
    frame: &mut Vec<u8>,
) -> Result<(), Failed>
    requires device { page < B.pages device.old }
    requires page { page < CELL_PAGES_MAX }
    requires whole { length frame.old.items ≡ PAGE_SIZE }
    ensures ok { OnOk result ((resident : List CachedPage) (pages : ℕ) → Completes (reading page)
        (view B.pages B.contents B.counts (seen pages resident stored.now) device.old)
        (view B.pages B.contents B.counts (seen pages resident stored.now) device.new)) }
    ensures stops { OnErr result ((resident : List CachedPage) (pages : ℕ) → StopsAt (reading page)
        (view B.pages B.contents B.counts (seen pages resident stored.now) device.old)
        (view B.pages B.contents B.counts (seen pages resident stored.now) device.new)) }
    ensures loaded { OnOk result ((resident : List CachedPage) (pages : ℕ) → IfSome (B.contents device.old)
        (λ told. frame.new.items ≡ device_bytes (space_of (seen pages resident stored.now)) (page_of told) page)) }
    ensures contents { B.contents device.new ≡ B.contents device.old }
    ensures pages { B.pages device.new ≡ B.pages device.old }
    ensures counted { AreCounted (B.counts device.new) }
    ensures frame { length frame.new.items ≡ PAGE_SIZE }
{
    know_counts(device);
    if stored.contains(page) {
        return device.read_page(page, frame.as_mut_slice());
    }
    frame.as_mut_slice().fill(0);
    Ok(())
}

ghost use Rattle.std.specs.Prelude.{◌≡◌, ◌<◌, ◌+◌, ◌-◌, ◌≤◌, ◌∷◌, [], true, false, length, map, filter, take, nat_lt, nat_le, OnOk, OnErr, IfNone, IfOk, IfSome};
ghost use Rattle.std.specs.List.{AllByRecursion};
ghost use Rattle.vfs_base.specs.declared.limits.TheConstants.{CELL_PAGES_MAX, PAGE_SIZE, RESIDENT_PAGES};
ghost use Rattle.vfs_model.specs.Cache.{dirty_pages};
ghost use Rattle.vfs_model.specs.PageList.{slot_of};
ghost use Rattle.page_cache.specs.StoredSet.{pages_in};
ghost use Rattle.page_cache.specs.Layout.{numbers_of};
ghost use Rattle.page_cache.specs.Resident.{AreResident, bytes_in, clean_page, cleaned, dirty_end, edited, holds_page, spliced, with_front};

use crate::page_set::PageSet;
use lru::LruCache;
use std::alloc::{AllocFailed, Global};
use std::marker::Model;
use std::mem;
use std::num::NonZeroUsize;
use vfs_base::{NoMemory, RESIDENT_PAGES};

// A page in memory.
#[derive(Drop)]
struct Page {
    is_dirty: bool,
    bytes: Vec<u8>,
}

/// The pages in memory, most recent first.
#[derive(Drop)]
pub(crate) struct ResidentPages {
    pages: LruCache<u16, Page>,
}

impl Model for ResidentPages {
    ghost use Rattle.std.specs.Prelude.{List};
    ghost use Rattle.vfs_model.specs.PageList.{CachedPage};
    ghost use Rattle.page_cache.specs.Layout.{AreHeld, cached_pages};

    ghost Value = { List CachedPage };

    ghost view = { λ a. cached_pages a.pages.entries };

    ghost invariant = { λ a. AreHeld a.pages };
}

impl ResidentPages {
    /// Room for 32 pages, and none in it.
    pub(crate) fn new(alloc: Global) -> Result<ResidentPages, NoMemory>
        ensures { IfOk result (λ pages. pages ≡ []) }
    {
        let Some(count) = NonZeroUsize::new(RESIDENT_PAGES) else {
            unreachable!()
        };
        let pages = LruCache::new(alloc, count)?;
        Ok(ResidentPages { pages })
    }

    pub(crate) fn len(&self) -> usize
        ensures len { result ≡ length self.now }
        ensures sound { AreResident self.now }
    {
        self.pages.len()
    }

    /// Whether the page is in memory.
    pub(crate) fn contains(&self, page: u16) -> bool
        ensures { result ≡ holds_page self.now page }
    {
        self.pages.contains(&page)
    }

    /// Puts the page in front, where it is in memory, and answers whether it is.
    pub(crate) fn promote(&mut self, page: u16) -> bool
        ensures there { result ≡ holds_page self.old page }
        ensures front { result ≡ true → self.new ≡ with_front page self.old }
        ensures absent { result ≡ false → self.new ≡ self.old }
    {
        self.pages.promote(&page)
    }

    /// The last page, where it is dirty, with its bytes.
    pub(crate) fn dirty_last(&self) -> Option<(u16, &[u8])>
        ensures some { IfSome result (λ last. Some (last.0, last.1.now) ≡ dirty_end self.now) }
        ensures none { IfNone result (None ≡ dirty_end self.now) }
        ensures whole { IfSome result (λ last. length last.1.now ≡ PAGE_SIZE) }
        ensures sound { AreResident self.now }
    {
        match self.pages.peek_lru() {
            Some((page, last)) if last.is_dirty => Some((*page, last.bytes.as_slice())),
            _ => None,
        }
    }

    /// Lets the last page go.
    pub(crate) fn drop_last(&mut self)
        ensures { self.new ≡ take (length self.old - 1) self.old }
    {
        drop(self.pages.pop_lru());
    }

    /// Puts a page in front that was not in memory, clean.
    ///
    /// # Errors
    /// `NoMemory` where there is none for its place; the bytes are let go.
    pub(crate) fn add(&mut self, page: u16, bytes: Vec<u8>) -> Result<(), NoMemory>
        requires absent { holds_page self.old page ≡ false }
        requires room { length self.old < RESIDENT_PAGES }
        requires whole { length bytes.items ≡ PAGE_SIZE }
        ensures ok { OnOk result (self.new ≡ clean_page page bytes.items ∷ self.old) }
        ensures err { OnErr result (self.new ≡ self.old) }
    {
        let pushed = self.pages.push(
            page,
            Page {
                is_dirty: false,
                bytes,
            },
        )?;
        drop(pushed);
        Ok(())
    }

    /// Puts a page in front that was not in memory, clean and with the bytes of the frame, for which the
    /// last of 32 pages leaves: the frame is then that one's. Takes no memory where the allocator has
    /// kept what the page that leaves took.
    ///
    /// # Errors
    /// `NoMemory` where there is none for its place; nothing changes.
    pub(crate) fn replace_last(&mut self, page: u16, frame: &mut Vec<u8>) -> Result<(), NoMemory>
        requires absent { holds_page self.old page ≡ false }
        requires full { length self.old ≡ RESIDENT_PAGES }
        requires whole { length frame.old.items ≡ PAGE_SIZE }
        ensures ok { OnOk result (self.new ≡ clean_page page frame.old.items ∷ take (length self.old - 1) self.old) }
        ensures err { OnErr result (self.new ≡ self.old) }
        ensures kept { OnErr result (frame.new.items ≡ frame.old.items) }
        ensures frame { length frame.new.items ≡ PAGE_SIZE }
    {
        let bytes = mem::replace(frame, Vec::new(*frame.allocator()));
        match self.pages.push(
            page,
            Page {
                is_dirty: false,
                bytes,
            },
        ) {
            Ok(Some((_, left))) => {
                *frame = left.bytes;
                Ok(())
            }
            Ok(None) => unreachable!(),
            Err(
                AllocFailed {
                    value: (_, unplaced),
                },
            ) => {
                *frame = unplaced.bytes;
                Err(NoMemory)
            }
        }
    }

    /// The bytes of a page in memory.
    pub(crate) fn bytes(&self, page: u16) -> &[u8]
        requires { holds_page self.now page ≡ true }
        ensures value { result.now ≡ bytes_in self.now page }
        ensures whole { length result.now ≡ PAGE_SIZE }
    {
        match self.pages.peek(&page) {
            Some(held) => held.bytes.as_slice(),
            None => unreachable!(),
        }
    }

    /// Marks a page in memory as clean.
    pub(crate) fn clean(&mut self, page: u16)
        ensures { self.new ≡ map (cleaned page) self.old }
    {
        if let Some(held) = self.pages.peek_mut(&page) {
            held.is_dirty = false;
        }
    }

    /// Puts a piece into a page in memory, from a place on; the page is dirty then.
    pub(crate) fn edit(&mut self, page: u16, at: u16, piece: &[u8])
        requires fits { at + length piece.now ≤ PAGE_SIZE }
        ensures { self.new ≡ map (edited page at piece.now) self.old }
    {
        if let Some(held) = self.pages.peek_mut(&page) {
            held.is_dirty = true;
            splice(&mut held.bytes, usize::from(at), piece);
        }
    }

    /// Lets the pages from this one on go.
    pub(crate) fn cut(&mut self, keep: u16)
        requires within { AllByRecursion (λ cached. cached.page < CELL_PAGES_MAX) self.old }
        ensures { self.new ≡ filter (λ cached. nat_lt cached.page keep) self.old }
    {
        let mut pages = pages_from(&self.pages, keep);
        while let Some(page) = pages.pop_first() {
            drop(self.pages.pop(&page));
        }
    }

    /// The dirty pages.
    pub(crate) fn dirty(&self) -> PageSet
        requires within { AllByRecursion (λ cached. cached.page < CELL_PAGES_MAX) self.now }
        ensures { pages_in result.words ≡ dirty_pages (record { resident = map slot_of self.now; stored = [] }) }
    {
        dirty_pages(&self.pages)
    }
}

fn dirty_pages(pages: &LruCache<u16, Page>) -> PageSet
    requires within { AllByRecursion (λ e. e.0 < CELL_PAGES_MAX) pages.now.entries }
    ensures { pages_in result.words ≡ numbers_of (filter (λ e. e.1.is_dirty) pages.now.entries) }
{
    let mut dirty = PageSet::new();
    for (page, held) in pages.iter() {
        if held.is_dirty {
            dirty.insert(*page);
        }
    }
    dirty
}

fn pages_from(pages: &LruCache<u16, Page>, keep: u16) -> PageSet
    requires within { AllByRecursion (λ e. e.0 < CELL_PAGES_MAX) pages.now.entries }
    ensures { pages_in result.words ≡ numbers_of (filter (λ e. nat_le keep e.0) pages.now.entries) }
{
    let mut above = PageSet::new();
    for (page, _held) in pages.iter() {
        if keep <= *page {
            above.insert(*page);
        }
    }
    above
}

// Puts the piece in place of as many bytes from a place on.
fn splice(bytes: &mut Vec<u8>, at: usize, piece: &[u8])
    requires { at + length piece.now ≤ length bytes.old.items }
    ensures { bytes.new.items ≡ spliced at piece.now bytes.old.items }
{
    bytes[at..at + piece.len()].copy_from_slice(piece);
}

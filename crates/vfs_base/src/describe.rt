//! What is told of devices: their shapes, their counts, and what a volume keeps.

ghost use Rattle.std.specs.Prelude.{◌≡◌, ℕ, ◌≤◌, ◌&&◌, nat_le, if◌then◌else◌};

use crate::limits::CELL_PAGES_MAX;
use crate::list::{Bytes, List};
use crate::name::Name;
use crate::path::Path;
use std::collections::BTreeMap;
use std::marker::Model;

/// The devices that are handed in, in their order. All names are different.
#[derive(Debug, Drop)]
pub struct Describe {
    pub volumes: List<VolumeShape>,
    pub chars: List<CharsShape>,
}

/// A volume: its name, and the pages of each of its cells, of which there are at most 1024.
#[derive(Debug, Drop)]
pub struct VolumeShape {
    pub name: Name,
    pub pages: List<PageCount>,
}

/// A character device: its name, and the input that it has left, where it tells that.
#[derive(Debug, Drop)]
pub struct CharsShape {
    pub name: Name,
    pub input: Option<Bytes>,
}

/// The number of pages of a cell, 1 to 1024.
#[derive(Clone, Copy, Debug, PartialEq, Eq)]
pub struct PageCount {
    number: u16,
}

impl Model for PageCount {
    ghost Value = { ℕ };

    ghost view = { λ count. count.number };

    ghost invariant = { λ count. (1 ≤ count.number) × (count.number ≤ 1024) };

    ghost inverse = { λ number. record { number = number } };
}

impl PageCount {
    /// This number of pages; `None` where no cell has so many.
    pub fn new(number: u16) -> Option<PageCount>
        ensures { result ≡ (if nat_le 1 number && nat_le number 1024 then Some number else None) }
    {
        if 1 <= number && number <= CELL_PAGES_MAX {
            Some(PageCount { number })
        } else {
            None
        }
    }

    /// The number of pages, 1 to 1024.
    pub fn number(self) -> u16
        ensures value { result ≡ self }
        ensures least { 1 ≤ self }
        ensures greatest { self ≤ 1024 }
    {
        self.number
    }
}

/// How often a block device was called: failed calls are counted in each field that they belong to.
#[derive(Clone, Copy, Debug, PartialEq, Eq)]
pub struct Counts {
    pub reads: u64,
    pub writes: u64,
    /// The calls that failed.
    pub faults: u64,
}

/// What stands at a path of a volume.
#[derive(Clone, Copy, Debug, PartialEq, Eq)]
pub enum CellNode {
    /// A folder.
    Dir,
    /// A file: the cell that it occupies, its number of bytes, and its stored pages. Bit i says that
    /// page i was written since the cell was taken for the file.
    File {
        cell: u16,
        size: u64,
        stored: [u64; 16],
    },
}

/// What a volume keeps while it is not mounted: what stands at each path.
pub type Record = BTreeMap<Path, CellNode>;

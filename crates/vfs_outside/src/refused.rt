use crate::block::Block;
use crate::chars::Chars;
use std::fmt;

/// Why a device was not taken. The first reason that holds is told.
#[derive(Clone, Copy, Debug, PartialEq, Eq)]
pub enum DeviceWhy {
    /// A volume or a character device has the name.
    NameTaken,
    /// A cell has no page or more than 1024, or there are more than 1024 cells.
    BadPages,
    /// There was no memory for one more place.
    NoMemory,
}

impl fmt::Display for DeviceWhy {
    fn fmt<W: fmt::Write>(&self, f: &mut fmt::Formatter<W>) -> fmt::Result {
        match self {
            DeviceWhy::NameTaken => write!(f, "the name is taken"),
            DeviceWhy::BadPages => write!(f, "too many cells, or a cell of a bad size"),
            DeviceWhy::NoMemory => write!(f, "no memory"),
        }
    }
}

/// A volume that was not taken: why, and the devices of its cells, which go back.
#[derive(Drop)]
pub struct VolumeRefused<B: Block> {
    pub why: DeviceWhy,
    pub cells: Vec<B>,
}

/// A character device that was not taken: why, and the device, which goes back.
#[derive(Drop)]
pub struct CharsRefused<C: Chars> {
    pub why: DeviceWhy,
    pub device: C,
}

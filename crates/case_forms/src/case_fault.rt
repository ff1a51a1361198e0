//! Why a case could not be played.

use std::alloc::{AllocError, AllocFailed};
use std::io;
use std::num::ParseIntError;
use std::str::Utf8Error;
use vfs_base::NoMemory;

/// A case is not in its form, or could not be read.
#[derive(Clone, Copy, Debug)]
pub enum CaseFault {
    NoMemory,
    Unread,
    Section,
    LastLine,
    Order,
    Escape,
    Number,
    Name,
    Text,
    Step,
    Reply,
    Call,
    Input,
    NoDevice,
}

impl CaseFault {
    /// What is wrong with the line.
    pub fn why(self) -> &'static str {
        match self {
            CaseFault::NoMemory => "no memory",
            CaseFault::Unread => "it can't be read",
            CaseFault::Section => "no such section, or no head where the case begins",
            CaseFault::LastLine => "the last line lacks its line feed",
            CaseFault::Order => "the section stands at the wrong place",
            CaseFault::Escape => "no such escape",
            CaseFault::Number => "no number, or one out of its range",
            CaseFault::Name => "no name",
            CaseFault::Text => "no text",
            CaseFault::Step => "no such step",
            CaseFault::Reply => "no such reply",
            CaseFault::Call => "no such call",
            CaseFault::Input => "the input is not in its form",
            CaseFault::NoDevice => "no volume or device can be handed in yet",
        }
    }
}

impl From<NoMemory> for CaseFault {
    fn from(_: NoMemory) -> CaseFault {
        CaseFault::NoMemory
    }
}

impl From<AllocError> for CaseFault {
    fn from(_: AllocError) -> CaseFault {
        CaseFault::NoMemory
    }
}

impl<T: Drop> From<AllocFailed<T>> for CaseFault {
    fn from(_: AllocFailed<T>) -> CaseFault {
        CaseFault::NoMemory
    }
}

impl From<ParseIntError> for CaseFault {
    fn from(_: ParseIntError) -> CaseFault {
        CaseFault::Number
    }
}

impl From<Utf8Error> for CaseFault {
    fn from(_: Utf8Error) -> CaseFault {
        CaseFault::Text
    }
}

impl From<io::Error> for CaseFault {
    fn from(_: io::Error) -> CaseFault {
        CaseFault::Unread
    }
}

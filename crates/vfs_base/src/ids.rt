//! Numbers of sessions, vnode slots, generations, mounts and references, each in its range.

ghost use Rattle.std.specs.Prelude.{◌≡◌, ℕ, ◌-◌, ◌≤◌, ◌<◌, ◌&&◌, nat_le, nat_lt, if◌then◌else◌};

use crate::limits::{MOUNTS, ROWS, SESSIONS};
use std::marker::Model;

/// The number of a session, 1 to 8.
#[derive(Clone, Copy, Debug, PartialEq, Eq, PartialOrd, Ord)]
pub struct SessionId {
    number: u8,
}

impl Model for SessionId {
    ghost Value = { ℕ };

    ghost view = { λ id. id.number };

    ghost invariant = { λ id. (1 ≤ id.number) × (id.number ≤ 8) };

    ghost inverse = { λ number. record { number = number } };
}

impl SessionId {
    /// The first session; a shell by hand is this one.
    pub const FIRST: SessionId = SessionId { number: 1 };

    /// The session of this number; `None` where there is none.
    pub fn new(number: u8) -> Option<SessionId>
        ensures { result ≡ (if nat_le 1 number && nat_le number 8 then Some number else None) }
    {
        if 1 <= number && number <= SESSIONS {
            Some(SessionId { number })
        } else {
            None
        }
    }

    /// The session's number, 1 to 8.
    pub fn number(self) -> u8
        ensures value { result ≡ self }
        ensures least { 1 ≤ self }
        ensures greatest { self ≤ 8 }
    {
        self.number
    }

    /// The session's place in a list by sessions: its number less one.
    pub fn place(self) -> usize
        ensures value { result ≡ self - 1 }
        ensures least { 1 ≤ self }
        ensures below { result < 8 }
    {
        self.number as usize - 1
    }
}

/// The number of a vnode slot, the place of one live file: 1 to `ROWS`.
#[derive(Clone, Copy, Debug, PartialEq, Eq, PartialOrd, Ord)]
pub struct RowId {
    number: u16,
}

impl Model for RowId {
    ghost Value = { ℕ };

    ghost view = { λ id. id.number };

    ghost invariant = { λ id. (1 ≤ id.number) × (id.number ≤ 1024) };

    ghost inverse = { λ number. record { number = number } };
}

impl RowId {
    /// The slot of this number; `None` where there is none.
    pub fn new(number: u16) -> Option<RowId>
        ensures { result ≡ (if nat_le 1 number && nat_le number 1024 then Some number else None) }
    {
        if 1 <= number && number <= ROWS {
            Some(RowId { number })
        } else {
            None
        }
    }

    /// The slot's number, 1 to `ROWS`.
    pub fn number(self) -> u16
        ensures value { result ≡ self }
        ensures least { 1 ≤ self }
        ensures greatest { self ≤ 1024 }
    {
        self.number
    }

    /// The slot's place in a list by slots: its number less one.
    pub fn place(self) -> usize
        ensures value { result ≡ self - 1 }
        ensures least { 1 ≤ self }
        ensures below { result < 1024 }
    {
        self.number as usize - 1
    }
}

/// How many files a vnode slot has held, up to and with this one; at least 1.
#[derive(Clone, Copy, Debug, PartialEq, Eq, PartialOrd, Ord)]
pub struct Generation {
    number: u64,
}

impl Model for Generation {
    ghost Value = { ℕ };

    ghost view = { λ id. id.number };

    ghost invariant = { λ id. 1 ≤ id.number };

    ghost inverse = { λ number. record { number = number } };
}

impl Generation {
    /// The generation of a slot's first file.
    pub const FIRST: Generation = Generation { number: 1 };

    /// The generation of this number; `None` for 0, the generation of a slot that has held none.
    pub fn new(number: u64) -> Option<Generation>
        ensures { result ≡ (if nat_le 1 number then Some number else None) }
    {
        if 1 <= number {
            Some(Generation { number })
        } else {
            None
        }
    }

    /// The generation's number, at least 1.
    pub fn number(self) -> u64
        ensures value { result ≡ self }
        ensures least { 1 ≤ self }
    {
        self.number
    }
}

/// The number of a mount, 0 to 15. Mount 0 is `/`.
#[derive(Clone, Copy, Debug, PartialEq, Eq, PartialOrd, Ord)]
pub struct MountId {
    number: u8,
}

impl Model for MountId {
    ghost Value = { ℕ };

    ghost view = { λ id. id.number };

    ghost invariant = { λ id. id.number < 16 };

    ghost inverse = { λ number. record { number = number } };
}

impl MountId {
    /// The mount of `/`, which is never unmounted.
    pub const ROOT: MountId = MountId { number: 0 };

    /// The mount of this number; `None` where there is none.
    pub fn new(number: u8) -> Option<MountId>
        ensures { result ≡ (if nat_lt number 16 then Some number else None) }
    {
        if (number as usize) < MOUNTS {
            Some(MountId { number })
        } else {
            None
        }
    }

    /// The mount's number, 0 to 15.
    pub fn number(self) -> u8
        ensures value { result ≡ self }
        ensures below { self < 16 }
    {
        self.number
    }
}

/// A file for as long as it lives: its vnode slot, and which of the slot's files it is.
///
/// A slot is used again when its file is freed. The generation tells the two files apart.
#[derive(Clone, Copy, Debug, PartialEq, Eq)]
pub struct FileId {
    /// The file's slot.
    pub row: RowId,
    /// Which of the slot's files it is.
    pub generation: Generation,
}

/// A reference to a file: an open file's or a mapping's. A caller may name one that is not there.
#[derive(Clone, Copy, Debug, PartialEq, Eq)]
pub struct HoldId {
    /// The session that has the reference.
    pub session: SessionId,
    /// The reference's number in its session; those that are given out are 1 to 32.
    pub number: u8,
}

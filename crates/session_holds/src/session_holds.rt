//! References and working directories, by session.

ghost use Rattle.std.specs.Prelude.{◌≡◌, [], ◌+◌, ◌-◌, ◌*◌, ◌<◌, ◌≤◌, Some, None, is_none, length, nat_lt, replicate, IfOk, IfSome, if◌then◌else◌};
ghost use Rattle.std.specs.List.{position_or_len};
ghost use Rattle.std.specs.Option.{option_copied};
ghost use Rattle.vfs_base.specs.declared.limits.TheConstants.{HOLDS, SESSIONS};
ghost use Rattle.session_holds.specs.SessionTable.{IsSound, folder_of, least_free_number, opening_table, reference_at, references_of, with_folder_of, with_reference};

use std::alloc::Global;
use std::marker::Model;
use vfs_base::{HOLDS, List, NoMemory, Path, SESSIONS, SessionId};
use vfs_model::Reference;

/// What the eight sessions hold: each up to 32 references by number, from 1, and a working directory.
///
/// Memory is taken by `new` alone.
#[derive(Debug, Drop)]
pub struct SessionHolds {
    // 32 places for each session.
    references: List<Option<Reference>>,
    // The working directories, by session.
    folders: List<Path>,
}

impl Model for SessionHolds {
    ghost use Rattle.session_holds.specs.SessionTable.{IsSound, SessionTable};

    ghost Value = { SessionTable };

    ghost view = { λ held. record { references = held.references; folders = held.folders } };

    ghost invariant = { λ held. IsSound (record { references = held.references; folders = held.folders }) };
}

impl SessionHolds {
    /// No session has a reference, and each is in `/`.
    pub fn new(alloc: Global) -> Result<SessionHolds, NoMemory>
        ensures { IfOk result (λ held. held ≡ opening_table) }
    {
        Ok(SessionHolds {
            references: no_references(alloc)?,
            folders: root_folders(alloc)?,
        })
    }

    /// The session's least number without a reference, from 1 to 32; `None` exactly where it has 32
    /// references.
    pub fn free_number(&self, session: SessionId) -> Option<u8>
        ensures number { result ≡ (if nat_lt HOLDS (least_free_number self.now session) then None
            else Some (least_free_number self.now session)) }
        ensures from { IfSome result (λ number. 1 ≤ number) }
        ensures to { IfSome result (λ number. number ≤ HOLDS) }
        ensures empty { IfSome result (λ number. reference_at self.now session number ≡ None) }
    {
        let place = first_empty(self.references_of(session));
        if place < HOLDS as u8 {
            Some(place + 1)
        } else {
            None
        }
    }

    /// The reference that the session has by this number; `None` exactly where it has none.
    pub fn get(&self, session: SessionId, number: u8) -> Option<&Reference>
        ensures { option_copied result ≡ reference_at self.now session number }
    {
        let place = number.checked_sub(1)?;
        self.references_of(session).get(place as usize)?.as_ref()
    }

    /// The session has the reference by this number from now on, in place of one that it has.
    pub fn set(&mut self, session: SessionId, number: u8, reference: Reference)
        requires from { 1 ≤ number }
        requires to { number ≤ HOLDS }
        ensures { self.new ≡ with_reference self.old session number (Some reference) }
    {
        self.references
            .set(place_of(session, number), Some(reference));
    }

    /// Takes the reference away that the session has by this number, and answers it.
    pub fn take(&mut self, session: SessionId, number: u8) -> Option<Reference>
        requires from { 1 ≤ number }
        requires to { number ≤ HOLDS }
        ensures reference { result ≡ reference_at self.old session number }
        ensures left { self.new ≡ with_reference self.old session number None }
    {
        self.references.replace(place_of(session, number), None)
    }

    /// The session's working directory.
    pub fn folder(&self, session: SessionId) -> &Path
        ensures { result.now ≡ folder_of self.now session }
    {
        &self.folders.as_slice()[session.place()]
    }

    /// The session's working directory is this one from now on.
    pub fn set_folder(&mut self, session: SessionId, folder: Path)
        ensures { self.new ≡ with_folder_of self.old session folder }
    {
        self.folders.set(session.place(), folder);
    }

    /// The references of all sessions: 32 places for each, by session and number.
    pub fn references(&self) -> &[Option<Reference>]
        ensures references { result.now ≡ self.now.references }
        ensures sound { IsSound self.now }
    {
        self.references.as_slice()
    }

    /// The working directories of all sessions.
    pub fn folders(&self) -> &[Path]
        ensures folders { result.now ≡ self.now.folders }
        ensures sound { IsSound self.now }
    {
        self.folders.as_slice()
    }

    // The references of a session by number, from 1.
    fn references_of(&self, session: SessionId) -> &[Option<Reference>]
        ensures value { result.now ≡ references_of self.now session }
        ensures size { length result.now ≡ 32 }
    {
        let from = HOLDS * session.place();
        &self.references.as_slice()[from..from + HOLDS]
    }
}

// The place of a session's number among all references.
fn place_of(session: SessionId, number: u8) -> usize
    requires { 1 ≤ number }
    ensures { result ≡ HOLDS * (session - 1) + (number - 1) }
{
    HOLDS * session.place() + (number as usize - 1)
}

fn first_empty(references: &[Option<Reference>]) -> u8
    requires { length references.now ≤ 32 }
    ensures { result ≡ position_or_len is_none references.now }
{
    let mut place = 0;
    for reference in references {
        if reference.is_none() {
            return place;
        }
        place += 1;
    }
    place
}

fn no_references(alloc: Global) -> Result<List<Option<Reference>>, NoMemory>
    ensures { IfOk result (λ references. references ≡ replicate (SESSIONS * HOLDS) None) }
{
    let mut references = List::new(alloc);
    for _ in 0..SESSIONS as usize * HOLDS {
        references.push(None)?;
    }
    Ok(references)
}

fn root_folders(alloc: Global) -> Result<List<Path>, NoMemory>
    ensures { IfOk result (λ folders. folders ≡ replicate SESSIONS []) }
{
    let mut folders = List::new(alloc);
    for _ in 0..SESSIONS {
        folders.push(Path::root(alloc))?;
    }
    Ok(folders)
}

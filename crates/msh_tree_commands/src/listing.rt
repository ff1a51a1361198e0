//! The lines of a listing.

ghost use Rattle.std.specs.Prelude.{◌≡◌, ◌++◌, IfOk, OnOk, List};
ghost use Rattle.msh_tree_commands.specs.FolderTalks.{folder_talk, listing_talk, Lists};

use crate::folders::FolderCommand;
use msh_forms::push_column;
use std::alloc::Global;
use std::collections::VecDeque;
use vfs_base::{Bytes, FileId, Kind, ListEntry, NoMemory, NodeKind};

/// A listing that is being made: the folder as it was typed, the text so far, and what is left to list.
#[derive(Drop)]
pub struct Listing {
    pub word: Bytes,
    pub text: Bytes,
    pub entries: VecDeque<ListEntry>,
}

fn copy_entry(entry: &ListEntry) -> Result<ListEntry, NoMemory>
    ensures { IfOk result (λ copy. copy ≡ entry.now) }
{
    let name = entry.name.copy()?;
    Ok(ListEntry {
        name,
        node: entry.node,
    })
}

/// The same entries in memory of their own.
pub fn copy_entries(alloc: Global, entries: &[ListEntry]) -> Result<VecDeque<ListEntry>, NoMemory>
    ensures { IfOk result (λ copies. copies.items ≡ entries.now) }
{
    let mut copies = VecDeque::new(alloc);
    for entry in entries {
        let copy = copy_entry(entry)?;
        copies.push_back(copy)?;
    }
    Ok(copies)
}

// Appends the line of an entry, or else answers the file whose size the line wants.
fn push_line(text: &mut Bytes, entry: &ListEntry) -> Result<Option<FileId>, NoMemory>
    ensures { IfOk result (λ file. Lists entry.now text.old text.new file) }
{
    match entry.node {
        NodeKind::Dir => {
            push_column(text, entry.name.as_bytes(), b"<DIR>")?;
            Ok(None)
        }
        NodeKind::File {
            file: _,
            kind: Kind::Chr,
        } => {
            push_column(text, entry.name.as_bytes(), b"<CHR>")?;
            Ok(None)
        }
        NodeKind::File {
            file,
            kind: Kind::Tmp | Kind::Rom | Kind::Cell,
        } => Ok(Some(file)),
    }
}

/// Lists the entries up to the next whose line wants a size, or all.
pub fn list_on(mut listing: Listing) -> Result<FolderCommand, NoMemory>
    ensures { IfOk result (λ command. folder_talk command ≡ listing_talk listing) }
{
    while let Some(entry) = listing.entries.pop_front() {
        if let Some(file) = push_line(&mut listing.text, &entry)? {
            let name = entry.name;
            return Ok(FolderCommand::LsSize {
                listing,
                name,
                file,
            });
        }
    }
    let Listing { text, .. } = listing;
    Ok(FolderCommand::Shown { text })
}

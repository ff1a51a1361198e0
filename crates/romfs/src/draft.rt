//! A rom while the lines of its manifest are read.

ghost use Rattle.std.specs.Prelude.{◌≡◌, [], ◌++◌, is_some, IfOk, Some, None, option_map, if◌then◌else◌};
ghost use Rattle.std.specs.Option.{option_copied};
ghost use Rattle.vfs_model.specs.Manifest.{with_item, with_more, first_bytes};
ghost use Rattle.vfs_model.specs.NormalPath.{parent_of};
ghost use Rattle.vfs_model.specs.Rom.{is_rom_folder};

use crate::field::{read_bytes, read_path, split_once};
use std::alloc::Global;
use std::collections::BTreeMap;
use std::marker::Model;
use vfs_base::{Bytes, List, NODES, NoMemory, Path};

/// What stands at the paths: a file has its bytes, and a folder none.
type Items = BTreeMap<Path, Option<Bytes>>;

/// A rom whose manifest is read line by line: what the lines so far mean.
#[derive(Drop)]
pub struct Draft {
    items: Items,
    // The file of the line before, with which a `+` line goes on.
    last_file: Option<Path>,
}

impl Model for Draft {
    ghost use Rattle.vfs_model.specs.Manifest.{Draft as ModelDraft};

    ghost Value = { ModelDraft };

    ghost view = { λ draft. record { items = draft.items.entries; last_file = draft.last_file } };
}

impl Draft {
    ghost use Rattle.vfs_model.specs.Manifest.{with_line, with_folder, with_file, with_bytes};

    /// The rom before the first line, which takes no memory yet.
    pub fn new(alloc: Global) -> Draft
        ensures { result ≡ record { items = []; last_file = None } }
    {
        Draft {
            items: BTreeMap::new(alloc),
            last_file: None,
        }
    }

    /// Takes the text of the next line, or answers `false` where it is outside the form of a manifest.
    ///
    /// After `false` and after an `Err` what the draft means is left open.
    pub fn take_line(&mut self, alloc: Global, line: &[u8]) -> Result<bool, NoMemory>
        ensures { IfOk result (λ taken. with_line self.old line.now
            ≡ if taken then Some self.new else None) }
    {
        match line {
            [b'd', b' ', text @ ..] => self.take_folder(alloc, text),
            [b'f', b' ', fields @ ..] => self.take_file(alloc, fields),
            [b'+', b' ', text @ ..] => self.take_bytes(alloc, text),
            _ => Ok(false),
        }
    }

    fn take_folder(&mut self, alloc: Global, text: &[u8]) -> Result<bool, NoMemory>
        ensures { IfOk result (λ taken. with_folder self.old text.now
            ≡ if taken then Some self.new else None) }
    {
        let Some(path) = read_path(alloc, text)? else {
            return Ok(false);
        };
        self.last_file = None;
        insert_new(&mut self.items, path, None)
    }

    fn take_file(&mut self, alloc: Global, fields: &[u8]) -> Result<bool, NoMemory>
        ensures { IfOk result (λ taken. with_file self.old fields.now
            ≡ if taken then Some self.new else None) }
    {
        let (text, rest) = split_once(fields, b' ');
        let Some(path) = read_path(alloc, text)? else {
            return Ok(false);
        };
        let Some(bytes) = first_bytes(alloc, rest)? else {
            return Ok(false);
        };
        self.last_file = Some(path.copy()?);
        insert_new(&mut self.items, path, Some(bytes))
    }

    fn take_bytes(&mut self, alloc: Global, text: &[u8]) -> Result<bool, NoMemory>
        ensures { IfOk result (λ taken. with_bytes self.old text.now
            ≡ if taken then Some self.new else None) }
    {
        let Some(path) = &self.last_file else {
            return Ok(false);
        };
        let Some(more) = read_bytes(alloc, text)? else {
            return Ok(false);
        };
        extend_file(&mut self.items, path, more.as_slice())
    }

    /// The paths in their order, each with what stands there.
    pub(crate) fn into_list(self, alloc: Global) -> Result<List<(Path, Option<Bytes>)>, NoMemory>
        ensures { IfOk result (λ items. items ≡ self.items) }
    {
        let Draft {
            items,
            last_file: _,
        } = self;
        let mut list = List::new(alloc);
        for item in items {
            list.push(item)?;
        }
        Ok(list)
    }
}

// The bytes of a file's first line: what stands behind its path, or none.
fn first_bytes(alloc: Global, text: Option<&[u8]>) -> Result<Option<Bytes>, NoMemory>
    ensures { IfOk result (λ found. found ≡ first_bytes (option_copied text.entry)) }
{
    match text {
        Some(text) => read_bytes(alloc, text),
        None => Ok(Some(Bytes::new(alloc))),
    }
}

// Puts an item at the path, if a manifest may have it next.
fn insert_new(items: &mut Items, path: Path, bytes: Option<Bytes>) -> Result<bool, NoMemory>
    ensures { IfOk result (λ inserted. with_item items.old.entries path bytes
        ≡ if inserted then Some items.new.entries else None) }
{
    if items.len() >= NODES || items.contains_key(&path) {
        return Ok(false);
    }
    let Some(path) = below_folder(items, path)? else {
        return Ok(false);
    };
    items.insert(path, bytes)?;
    Ok(true)
}

// The path, if its parent is `/` or a folder.
fn below_folder(items: &Items, mut path: Path) -> Result<Option<Path>, NoMemory>
    ensures { IfOk result (λ found. found
        ≡ if is_rom_folder items.now.entries (parent_of path) then Some path else None) }
{
    let Some(name) = path.pop() else {
        return Ok(Some(path));
    };
    if !is_folder(items, &path) {
        return Ok(None);
    }
    path.push(name)?;
    Ok(Some(path))
}

fn is_folder(items: &Items, path: &Path) -> bool
    ensures { result ≡ is_rom_folder items.now.entries path.now }
{
    path.is_root() || matches!(items.get(path), Some(None))
}

// Puts more bytes behind those of the file at the path, or answers `false` where no file is.
#[tactic(auto, using(std::proofs::lemmas::Map::Steps::set_value_same))]
fn extend_file(items: &mut Items, path: &Path, more: &[u8]) -> Result<bool, NoMemory>
    ensures { IfOk result (λ extended. with_more items.old.entries path.now more.now
        ≡ if extended then Some items.new.entries else None) }
{
    match items.get_mut(path) {
        Some(item) => extend_item(item, more),
        None => Ok(false),
    }
}

fn extend_item(item: &mut Option<Bytes>, more: &[u8]) -> Result<bool, NoMemory>
    ensures file { IfOk result (λ extended. extended ≡ is_some item.old) }
    ensures bytes { IfOk result (λ _. item.new ≡ option_map (λ bytes. bytes ++ more.now) item.old) }
{
    match item {
        Some(bytes) => {
            bytes.extend_from_slice(more)?;
            Ok(true)
        }
        None => Ok(false),
    }
}

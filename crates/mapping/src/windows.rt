//! The mappings of one shell.

ghost use Rattle.std.specs.Prelude.{◌≡◌, ◌+◌, ◌≤◌, Ok, Err, IfOk, OnOk, IfErr, OnErr, IfSome, length, option_map, slice_get, is_none};
ghost use Rattle.std.specs.List.{filter_map, list_any, position, position_or_len};
ghost use Rattle.std.specs.Option.{option_copied};
ghost use Rattle.vfs_base.specs.declared.limits.TheConstants.{OFF_MAX, WINDOWS};
ghost use Rattle.vfs_base.specs.declared.step.Step.TheVariants.{Unmap};
ghost use Rattle.vfs_model.specs.Mappings.{add_mapping, check_mapping, has_all_mappings, mapping_at, opening_mappings, remove_mapping};
ghost use Rattle.vfs_model.specs.Session.{unmap_step};
ghost use Rattle.mapping.specs.MapFault.{errno_of};

use crate::map_fault::MapFault;
use std::alloc::Global;
use std::marker::Model;
use vfs_base::{FileId, NoMemory, WINDOWS};
use vfs_model::Window;

/// The mappings of a shell, numbered from 1 to 8.
///
/// The first call takes all memory; no later one takes any.
#[derive(Debug, Drop)]
pub struct Windows {
    places: Vec<Option<Window>>,
}

impl Model for Windows {
    ghost use Rattle.std.specs.Prelude.{List, Option};
    ghost use Rattle.vfs_model.specs.declared.shell_state.Window.{Window};
    ghost use Rattle.mapping.specs.Windows.{AreWindows};

    ghost Value = { List (Option Window) };

    ghost view = { λ windows. windows.places.items };

    ghost invariant = { λ windows. AreWindows windows.places.items };
}

impl Windows {
    /// No mapping, with memory for all.
    pub fn new(alloc: Global) -> Result<Windows, NoMemory>
        ensures { IfOk result (λ windows. windows ≡ opening_mappings) }
    {
        let places = vec![in alloc; None; WINDOWS]?;
        Ok(Windows { places })
    }

    /// Whether no number is free.
    pub fn is_full(&self) -> bool
        ensures { result ≡ has_all_mappings self.now }
    {
        !has_free(&self.places)
    }

    /// A mapping more, at the least free number, which is answered; `EMFILE` where none is free.
    #[tactic(auto, using(crate::proofs::FreeNumbers::free_within), unfolding(vfs_model::specs::Mappings::add_mapping))]
    pub fn add(&mut self, window: Window) -> Result<u8, MapFault>
        requires { window.off + window.len ≤ OFF_MAX }
        ensures ok { IfOk result (λ number.
            add_mapping self.old window ≡ Ok (record { number = number; mappings = self.new })) }
        ensures fault { IfErr result (λ fault. add_mapping self.old window ≡ Err (errno_of fault)) }
        ensures refused { OnErr result (self.new ≡ self.old) }
    {
        if !has_free(&self.places) {
            return Err(MapFault::EMFILE);
        }
        let place = first_free(&self.places);
        self.places[place] = Some(window);
        Ok(place as u8 + 1)
    }

    /// The file of a mapping and the offset in it of `len` bytes from `off` on, which are to be read,
    /// or written where `write` says so.
    ///
    /// It is refused with the first of these that holds: `EINVAL` where no mapping has the number,
    /// `EACCES` where they are to be written and the mapping is not for writing, and `EFAULT` where
    /// they end behind the mapping.
    #[tactic(auto, unfolding(vfs_model::specs::Mappings::check_mapping))]
    pub fn check(
        &self,
        number: u64,
        off: u64,
        len: u64,
        write: bool,
    ) -> Result<(FileId, u64), MapFault>
        ensures ok { IfOk result (λ found. check_mapping self.now number off len write
            ≡ Ok (record { file = found.0; offset = found.1 })) }
        ensures fault { IfErr result
            (λ fault. check_mapping self.now number off len write ≡ Err (errno_of fault)) }
    {
        let Some(window) = self.get(number) else {
            return Err(MapFault::EINVAL);
        };
        if write && !window.writes {
            return Err(MapFault::EACCES);
        }
        if window.len < off.saturating_add(len) {
            return Err(MapFault::EFAULT);
        }
        Ok((window.file, window.off + off))
    }

    /// A mapping is taken out; `EINVAL` where none has the number (POSIX.1-2017, munmap).
    #[tactic(auto, unfolding(vfs_model::specs::Mappings::remove_mapping))]
    pub fn remove(&mut self, number: u64) -> Result<Window, MapFault>
        ensures ok { IfOk result (λ window.
            remove_mapping self.old number ≡ Ok (record { window = window; mappings = self.new })) }
        ensures fault { IfErr result (λ fault. remove_mapping self.old number ≡ Err (errno_of fault)) }
        ensures refused { OnErr result (self.new ≡ self.old) }
    {
        let Some(window) = window_at(&self.places, number) else {
            return Err(MapFault::EINVAL);
        };
        self.places[number as usize - 1] = None;
        Ok(window)
    }

    /// The mapping of a number; `None` where none has it.
    pub fn get(&self, number: u64) -> Option<&Window>
        ensures mapping { option_copied result ≡ mapping_at self.now number }
        ensures within { IfSome result (λ window. window.now.off + window.now.len ≤ OFF_MAX) }
    {
        let place = number.checked_sub(1)?;
        self.places.get(place as usize)?.as_ref()
    }

    /// The mapping at this place, from 0, among those that are there, by their numbers; `None` from
    /// their count on.
    pub fn nth(&self, place: usize) -> Option<&Window>
        ensures count { length self.now ≡ WINDOWS }
        ensures mapping { option_copied result ≡ slice_get (filter_map (λ window. window) self.now) place }
        ensures unmaps { option_map (λ window. Unmap window.now.hold) result
            ≡ slice_get (filter_map unmap_step self.now) place }
    {
        nth_window(&self.places, place)
    }
}

fn nth_window(places: &[Option<Window>], place: usize) -> Option<&Window>
    ensures { option_copied result ≡ slice_get (filter_map (λ window. window) places.now) place }
{
    let mut left = place;
    for window in places {
        if let Some(window) = window {
            if left == 0 {
                return Some(window);
            }
            left -= 1;
        }
    }
    None
}

fn has_free(places: &[Option<Window>]) -> bool
    ensures { result ≡ list_any is_none places.now }
{
    places.iter().any(|place| place.is_none())
}

// The first free place, or the number of places where none is free.
fn first_free(places: &[Option<Window>]) -> usize
    ensures { result ≡ position_or_len is_none places.now }
{
    match free_place(places) {
        Some(place) => place,
        None => places.len(),
    }
}

fn free_place(places: &[Option<Window>]) -> Option<usize>
    ensures { result ≡ position is_none places.now }
{
    places.iter().position(|place| place.is_none())
}

fn window_at(places: &[Option<Window>], number: u64) -> Option<Window>
    ensures { result ≡ mapping_at places.now number }
{
    let place = number.checked_sub(1)?;
    *places.get(place as usize)?
}

//! The descriptors and open files of one shell.

ghost use Rattle.std.specs.Prelude.{◌≡◌, Ok, Err, IfOk, OnOk, IfErr, OnErr, option_map, slice_get};
ghost use Rattle.std.specs.List.{filter_map};
ghost use Rattle.vfs_base.specs.declared.step.Step.TheVariants.{Close};
ghost use Rattle.vfs_model.specs.DescriptorLaws.{IsSound};
ghost use Rattle.vfs_model.specs.OpenFiles.{add_file, close_file, dup_file, has_all_descriptors, is_last, open_file, opening_files, seek, set_place};
ghost use Rattle.vfs_model.specs.Session.{close_step, files_to_close};
ghost use Rattle.fd_table.specs.FdFault.{errno_of};

use crate::exit::nth_hold;
use crate::fd_fault::FdFault;
use crate::offset::{sought_offset, whence_offset};
use crate::places::{first_free, has_free, is_led_once, number_at};
use std::alloc::Global;
use std::marker::Model;
use vfs_base::{DESCRIPTORS, FIRST_DESCRIPTOR, HoldId, NoMemory};
use vfs_model::{OpenFile, Whence};

/// The descriptors of a shell, 3 to 18, and its open files.
///
/// The first call takes all memory; no later one takes any.
#[derive(Debug, Drop)]
pub struct FdTable {
    // For each descriptor, from 3 on, the number of its open file.
    descriptors: Vec<Option<usize>>,
    // The open files, by number.
    files: Vec<Option<OpenFile>>,
}

impl Model for FdTable {
    ghost use Rattle.vfs_model.specs.declared.shell_state.OpenFiles.{OpenFiles};
    ghost use Rattle.vfs_model.specs.DescriptorLaws.{IsSound};

    ghost Value = { OpenFiles };

    ghost view = { λ table. record { descriptors = table.descriptors.items; files = table.files.items } };

    ghost invariant = { λ table. IsSound (record { descriptors = table.descriptors.items; files = table.files.items }) };
}

impl FdTable {
    /// No descriptor is used, and there is memory for all.
    pub fn new(alloc: Global) -> Result<FdTable, NoMemory>
        ensures { IfOk result (λ table. table ≡ opening_files) }
    {
        let descriptors = vec![in alloc; None; DESCRIPTORS]?;
        let files = vec![in alloc; None; DESCRIPTORS]?;
        Ok(FdTable { descriptors, files })
    }

    /// Whether no descriptor is free.
    pub fn is_full(&self) -> bool
        ensures { result ≡ has_all_descriptors self.now }
    {
        !has_free(&self.descriptors)
    }

    /// An open file more, at the least free descriptor, which is answered; `EMFILE` where none is
    /// free (POSIX.1-2017, open).
    #[tactic(auto, unfolding(vfs_model::specs::OpenFiles::add_file))]
    pub fn add(&mut self, file: OpenFile) -> Result<u64, FdFault>
        ensures ok { IfOk result
            (λ fd. add_file self.old file ≡ Ok (record { fd = fd; open_files = self.new })) }
        ensures fault { IfErr result (λ fault. add_file self.old file ≡ Err (errno_of fault)) }
        ensures refused { OnErr result (self.new ≡ self.old) }
    {
        if !has_free(&self.descriptors) {
            return Err(FdFault::EMFILE);
        }
        let place = first_free(&self.descriptors);
        let number = first_free(&self.files);
        self.files[number] = Some(file);
        self.descriptors[place] = Some(number);
        Ok(place as u64 + FIRST_DESCRIPTOR)
    }

    /// The open file of a descriptor; `EBADF` where it is free or out of range.
    pub fn get(&self, fd: u64) -> Result<&OpenFile, FdFault>
        ensures ok { IfOk result (λ file. open_file self.now fd ≡ Ok file.now) }
        ensures fault { IfErr result (λ fault. open_file self.now fd ≡ Err (errno_of fault)) }
    {
        let Some(number) = number_at(&self.descriptors, fd) else {
            return Err(FdFault::EBADF);
        };
        match self.files.get(number) {
            Some(Some(file)) => Ok(file),
            _ => Err(FdFault::EBADF),
        }
    }

    /// Gives the open file of a descriptor a place, which all descriptors that share it see; `EBADF`
    /// where the descriptor is free or out of range.
    #[tactic(auto, unfolding(vfs_model::specs::OpenFiles::set_place))]
    pub fn set_place(&mut self, fd: u64, place: u64) -> Result<(), FdFault>
        ensures ok { OnOk result (set_place self.old fd place ≡ Ok self.new) }
        ensures fault { IfErr result (λ fault. set_place self.old fd place ≡ Err (errno_of fault)) }
        ensures refused { OnErr result (self.new ≡ self.old) }
    {
        let Some(number) = number_at(&self.descriptors, fd) else {
            return Err(FdFault::EBADF);
        };
        let Some(Some(file)) = self.files.get(number) else {
            return Err(FdFault::EBADF);
        };
        self.files[number] = Some(OpenFile { place, ..*file });
        Ok(())
    }

    /// A descriptor more of the same open file, the least free one, which is answered.
    ///
    /// It is refused with the first of these that holds (POSIX.1-2017, dup): `EBADF` where the
    /// descriptor is free or out of range, and `EMFILE` where none is free.
    #[tactic(auto, unfolding(vfs_model::specs::OpenFiles::dup_file))]
    pub fn dup(&mut self, fd: u64) -> Result<u64, FdFault>
        ensures ok { IfOk result
            (λ new. dup_file self.old fd ≡ Ok (record { fd = new; open_files = self.new })) }
        ensures fault { IfErr result (λ fault. dup_file self.old fd ≡ Err (errno_of fault)) }
        ensures refused { OnErr result (self.new ≡ self.old) }
    {
        let Some(number) = number_at(&self.descriptors, fd) else {
            return Err(FdFault::EBADF);
        };
        if !has_free(&self.descriptors) {
            return Err(FdFault::EMFILE);
        }
        let free = first_free(&self.descriptors);
        self.descriptors[free] = Some(number);
        Ok(free as u64 + FIRST_DESCRIPTOR)
    }

    /// Gives the open file of a descriptor the place at an offset, and answers it.
    ///
    /// It is refused with the first of these that holds (POSIX.1-2017, lseek): `EBADF` where the
    /// descriptor is free or out of range, `EINVAL` where the place would be below 0, and
    /// `EOVERFLOW` where it would be behind `OFF_MAX`.
    #[tactic(auto, unfolding(vfs_model::specs::OpenFiles::seek))]
    pub fn seek(&mut self, fd: u64, off: i64, whence: Whence) -> Result<u64, FdFault>
        ensures ok { IfOk result
            (λ place. seek self.old fd off whence ≡ Ok (record { place = place; open_files = self.new })) }
        ensures fault { IfErr result (λ fault. seek self.old fd off whence ≡ Err (errno_of fault)) }
        ensures refused { OnErr result (self.new ≡ self.old) }
    {
        let file = match self.get(fd) {
            Ok(file) => file,
            Err(fault) => return Err(fault),
        };
        let place = match sought_offset(whence_offset(file, whence), off) {
            Ok(place) => place,
            Err(fault) => return Err(fault),
        };
        match self.set_place(fd, place) {
            Ok(()) => Ok(place),
            Err(fault) => Err(fault),
        }
    }

    /// A descriptor goes, and with the last one of an open file that file, which is answered then;
    /// `EBADF` where the descriptor is free or out of range (POSIX.1-2017, close).
    #[tactic(auto, unfolding(vfs_model::specs::OpenFiles::close_file))]
    pub fn close(&mut self, fd: u64) -> Result<Option<OpenFile>, FdFault>
        ensures ok { IfOk result
            (λ last. close_file self.old fd ≡ Ok (record { last = last; open_files = self.new })) }
        ensures fault { IfErr result (λ fault. close_file self.old fd ≡ Err (errno_of fault)) }
        ensures refused { OnErr result (self.new ≡ self.old) }
    {
        let Some(number) = number_at(&self.descriptors, fd) else {
            return Err(FdFault::EBADF);
        };
        let is_last = is_led_once(&self.descriptors, number);
        self.descriptors[(fd - FIRST_DESCRIPTOR) as usize] = None;
        if !is_last {
            return Ok(None);
        }
        let file = self.files[number];
        self.files[number] = None;
        Ok(file)
    }

    /// Whether the descriptor is used, and no other one has its open file.
    pub fn is_last(&self, fd: u64) -> bool
        ensures { result ≡ is_last self.now fd }
    {
        match number_at(&self.descriptors, fd) {
            Some(number) => is_led_once(&self.descriptors, number),
            None => false,
        }
    }

    /// The reference of the open file that comes at this place, from 0, where open files are in the
    /// order of the greatest descriptor of each; `None` from their count on.
    ///
    /// A session that leaves gives up its open files in this order.
    pub fn nth_to_close(&self, place: usize) -> Option<HoldId>
        ensures sound { IsSound self.now }
        ensures closes { option_map (λ hold. Close hold) result
            ≡ slice_get (filter_map (close_step self.now) (files_to_close self.now.descriptors)) place }
    {
        nth_hold(&self.descriptors, &self.files, place)
    }
}

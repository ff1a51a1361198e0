//! The order in which a session that leaves gives up its open files.

ghost use Rattle.std.specs.Prelude.{◌≡◌, drop, option_map, slice_get};
ghost use Rattle.std.specs.List.{filter_map, list_any};
ghost use Rattle.vfs_base.specs.declared.step.Step.TheVariants.{Close};
ghost use Rattle.vfs_model.specs.OpenFiles.{leads_to};
ghost use Rattle.vfs_model.specs.Session.{close_step, files_to_close};
ghost use Rattle.fd_table.specs.Exit.{hold_of_first};

use vfs_base::HoldId;
use vfs_model::OpenFile;

// The reference of the open file that comes at this place, from 0, by the greatest descriptors.
pub fn nth_hold(
    descriptors: &[Option<usize>],
    files: &[Option<OpenFile>],
    place: usize,
) -> Option<HoldId>
    ensures { option_map (λ hold. Close hold) result
        ≡ slice_get
        (filter_map
        (close_step (record { descriptors = descriptors.now; files = files.now }))
        (files_to_close descriptors.now))
        place }
{
    let mut left = place;
    for at in 0..descriptors.len() {
        if let Some(hold) = hold_at(descriptors, files, at) {
            if left == 0 {
                return Some(hold);
            }
            left -= 1;
        }
    }
    None
}

// The reference of the open file that has this descriptor and no greater one.
fn hold_at(descriptors: &[Option<usize>], files: &[Option<OpenFile>], at: usize) -> Option<HoldId>
    ensures { result ≡ hold_of_first files.now (drop at descriptors.now) }
{
    let number = (*descriptors.get(at)?)?;
    if is_led(&descriptors[at + 1..], number) {
        return None;
    }
    let file = (*files.get(number)?)?;
    Some(file.hold)
}

// Whether a descriptor leads to the open file of this number.
fn is_led(descriptors: &[Option<usize>], number: usize) -> bool
    ensures { result ≡ list_any (leads_to number) descriptors.now }
{
    descriptors
        .iter()
        .any(|descriptor| *descriptor == Some(number))
}

//! Free places, and the descriptors that lead to an open file.

ghost use Rattle.std.specs.Prelude.{◌≡◌, ◌-◌, ◌==◌, ◌+◌, Some, None, option_map, nat_lt, if◌then◌else◌, is_none, count_by, slice_index_or, drop};
ghost use Rattle.std.specs.List.{list_any, position, position_or_len};
ghost use Rattle.vfs_base.specs.declared.limits.TheConstants.{FIRST_DESCRIPTOR};
ghost use Rattle.vfs_model.specs.OpenFiles.{leads_to};

use vfs_base::FIRST_DESCRIPTOR;

// Whether a place is free.
pub fn has_free<T>(places: &[Option<T>]) -> bool
    ensures { result ≡ list_any is_none places.now }
{
    places.iter().any(|place| place.is_none())
}

// The first free place, or the number of places where none is free.
pub fn first_free<T>(places: &[Option<T>]) -> usize
    ensures { result ≡ position_or_len is_none places.now }
{
    match free_place(places) {
        Some(place) => place,
        None => places.len(),
    }
}

fn free_place<T>(places: &[Option<T>]) -> Option<usize>
    ensures { result ≡ position is_none places.now }
{
    places.iter().position(|place| place.is_none())
}

// The number that a descriptor leads to.
pub fn number_at(descriptors: &[Option<usize>], fd: u64) -> Option<usize>
    ensures { result ≡ (if nat_lt fd FIRST_DESCRIPTOR then None
        else slice_index_or descriptors.now (fd - FIRST_DESCRIPTOR) None) }
{
    let place = fd.checked_sub(FIRST_DESCRIPTOR)?;
    *descriptors.get(place as usize)?
}

// Whether just one descriptor leads to the open file of this number.
pub fn is_led_once(descriptors: &[Option<usize>], number: usize) -> bool
    ensures { result ≡ (count_by (leads_to number) descriptors.now == 1) }
{
    descriptors
        .iter()
        .filter(|descriptor| **descriptor == Some(number))
        .count()
        == 1
}

//! What the steps of a file are refused with.

ghost use Rattle.std.specs.Prelude.{◌≡◌};
ghost use Rattle.vfs_model.specs.FileStep.{file_refusals};
ghost use Rattle.vfs_model.specs.RowShape.{shape_of};
ghost use Rattle.file_steps.specs.Shape.{shape_in};

use file_steps::{RowShape, refusals};
use vfs_base::{Errno, Step};
use vfs_model::FileState;

/// What a step of a file is refused with, if it is.
#[tactic(auto, unfolding(vfs_model::specs::FileStep::file_refusals))]
pub fn file_refusals(file: &FileState, step: &Step) -> Result<(), Errno>
    ensures { result ≡ file_refusals file.now step.now }
{
    refusals(shape_of(file), step)
}

// What is known of a file without its bytes.
fn shape_of(file: &FileState) -> RowShape
    ensures { shape_in result ≡ shape_of file.now }
{
    match file {
        FileState::Unbound { generation } => RowShape::Unbound {
            generation: *generation,
        },
        FileState::Bytes {
            generation,
            kind,
            capacity,
            bytes,
        } => RowShape::Bytes {
            generation: *generation,
            kind: *kind,
            capacity: *capacity,
            size: bytes.len() as u64,
        },
        FileState::Device { generation, .. } => RowShape::Device {
            generation: *generation,
        },
    }
}

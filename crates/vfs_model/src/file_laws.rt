//! The laws of what steps do to rows and files: each function states one, and does nothing.

ghost use Rattle.vfs_model.specs.LivingFiles.{FileLivesWhileNamed};
ghost use Rattle.vfs_model.specs.RowChange.{BytesChangeNoFile, ChangesActByRow, ChangesHaveRows, ListsChangeNoWorld, ListsChangeNothing, StepActsByRow, TouchedRowsChange};

/// The changes of a step in their order make of each row's file what the row's last change makes of it.
pub fn changes_act_by_row()
    ensures { ChangesActByRow }
{}

/// The rows that a step touches are those that it does something to.
pub fn touched_rows_change()
    ensures { TouchedRowsChange }
{}

/// Each change that a step makes is one of a row, where each file that is linked or held is live.
pub fn changes_have_rows()
    ensures { ChangesHaveRows }
{}

/// A step of the namespace makes of each row's file what it does to the row.
pub fn step_acts_by_row()
    ensures { StepActsByRow }
{}

/// A step of the namespace that answers with a list changes no row, and but for a Chdir nothing at all.
pub fn lists_change_nothing()
    ensures { ListsChangeNothing }
{}

/// A step of a file that answers with bytes leaves the file as it was, but for the read of a character device.
pub fn bytes_change_no_file()
    ensures { BytesChangeNoFile }
{}

/// A step that answers with a list or with bytes leaves the world as it was, but for a Chdir and the read of a character device.
pub fn lists_change_no_world()
    ensures { ListsChangeNoWorld }
{}

/// Between steps a row has a live file exactly where a path or a reference names it.
pub fn file_lives_while_named()
    ensures { FileLivesWhileNamed }
{}

//! Every step keeps the plain world consistent.
//!
//! A contract sees laws alone: each function states one, and does nothing. The parts of consistency are told in
//! docs/STEPS.md, "What holds between steps". It has no code, and knows none.
#![tactic(auto)]

// What is proved where, in `proofs`.
//
// `lists`: places, counts and filters (Lists, Counting, Filters, Leaving); chains of refusals (Passing).
//
// `parts`, the parts of consistency, each where one thing changes. Standing has them for a namespace on its way through a step.
// - rows agree, cells fit: Agreeing, FileKeeping
// - homes fit: AtHome, HomesKeeping
// - references live, rows are used: Standing, Referring, FreeRows, Binding, Freeing
// - folders stand: Covering, Points, Clear
// - trees are closed: Nodes, Growing, Removing, TreeParts, TreeMoves; what a mount begins with: Contents
// - boxes are placed, live files fit: Taking, Binding, Freeing, Emptying; what changes nothing of it: Beside
// - a volume that is not mounted keeps the same: Untouched
//
// `steps`: Keeping says what a step keeps, and StepKeeping has a case for each.
// - on names: NameKeeping; Open: OpenKeeping; Close, Map, Unmap: FileKeepingSteps; Rename: Renaming, MoveKeeping
// - Mount: Adding, MountKeeping, Filling, BoundFiles, FillApart, FillAll, MountEnd; what stands below its point then: MountedNodes, RomMount, VolumeMount
// - Umount: Unmounting, Vacating, MountRemoval, UmountKeeping; what a volume keeps then: KeptBytes, VolumeUmount
// - Mkfs: MkfsKeeping; Shutdown: Resting, RootRemoval, ShutdownKeeping
// - what a volume keeps while it is not mounted: VolumeStaying, VolumeSteps; an unmount, any steps and a mount again: Remounting
// - of one file: WorldKeeping; every step and every list of steps: WorldSteps; the start: Opening
// - every schedule of a script: ScriptKeeping; what it asks, and that a session that is done has left: ScriptAsking, LeftSessions;
//   that leaving needs no memory: SureLeaving
//
// A world behind what character devices had at entry: of files and rows in `parts`, FilesBehind and RowsBehind; of steps in
// `steps`, GoingOnBehind, of the namespace, and StepsBehind; which world it is, and the start: WorldBehind.

ghost use Rattle.world_laws.specs.Behind.{OpeningIsBehind, RunsGoOnBehind, StepsGoOnBehind, WorldsHaveOneBehind};
ghost use Rattle.world_laws.specs.Mounted.{KeptFilesStay, KeptFilesStayLater, MountedRomShowsItsFiles, MountedVolumeShowsItsFiles, RemountedVolumeShowsItsFiles, UnmountedVolumeKeepsItsFiles, VolumeMountedLaterShowsItsFiles};
ghost use Rattle.world_laws.specs.Keeping.{AskedMayBeTaken, FileStepsKeepConsistency, OpeningIsConsistent, RunsKeepConsistency, StepsKeepConsistency};
ghost use Rattle.world_laws.specs.Leaving.{LeavingNeedsNoMemory, ScheduleLeavesSurely};
ghost use Rattle.world_laws.specs.Scripts.{DoneSessionsHaveLeft, ScriptEndMayBeAsked, ScriptStepsMayBeAsked, ScriptsStayConsistent};

/// The world at the start of every script is consistent, whatever devices there are: the roms of a script are trees.
pub fn opening_is_consistent()
    ensures { OpeningIsConsistent }
{}

/// A step of one file, with a mark that fits, keeps the world consistent.
pub fn file_steps_keep_consistency()
    ensures { FileStepsKeepConsistency }
{}

/// Whoever may ask a step may take it.
pub fn asked_may_be_taken()
    ensures { AskedMayBeTaken }
{}

/// Every step that its asker may take, with a mark that fits, keeps the world consistent: also a Shutdown while something is in use.
pub fn steps_keep_consistency()
    ensures { StepsKeepConsistency }
{}

/// Steps that may be taken one after the other keep the world consistent.
pub fn runs_keep_consistency()
    ensures { RunsKeepConsistency }
{}

/// Where a script stands after any schedule of its sessions, the worker and the end, the world is consistent.
pub fn scripts_stay_consistent()
    ensures { ScriptsStayConsistent }
{}

/// Where a script stands after any schedule, each session may ask the step that it wants, and the worker each of its own.
pub fn script_steps_may_be_asked()
    ensures { ScriptStepsMayBeAsked }
{}

/// Where a script stands after any schedule, a session that is done has no reference and stands in `/`, where each step by which it
/// gave up a reference, or went back to `/`, was answered Done.
pub fn done_sessions_have_left()
    ensures { DoneSessionsHaveLeft }
{}

/// So the end, where all sessions are done, may ask Shutdown.
pub fn script_end_may_be_asked()
    ensures { ScriptEndMayBeAsked }
{}

/// Where a script stands after any schedule, each step by which a session leaves gives back a reference that the session has, or goes
/// back to `/`, also where a step before it was refused. So it needs no memory, and neither does the end.
pub fn leaving_needs_no_memory()
    ensures { LeavingNeedsNoMemory }
{}

/// In a schedule in which want of memory stops only steps that need memory, it stops no step by which a session leaves, nor the end.
pub fn schedule_leaves_surely()
    ensures { ScheduleLeavesSurely }
{}

/// Below the point of a rom that was mounted stands what the rom has, with its bytes, and nothing else.
pub fn mounted_rom_shows_its_files()
    ensures { MountedRomShowsItsFiles }
{}

/// Below the point of a volume that was mounted stands what the volume kept, with the bytes that lay on its cells, and nothing else.
pub fn mounted_volume_shows_its_files()
    ensures { MountedVolumeShowsItsFiles }
{}

/// A volume that was unmounted keeps what stood below the point: each folder, each file with its bytes on a cell, and nothing else.
pub fn unmounted_volume_keeps_its_files()
    ensures { UnmountedVolumeKeepsItsFiles }
{}

/// A volume that is unmounted and mounted again, at the same path or at another, shows the same folders and the same files, with the same bytes.
pub fn remounted_volume_shows_its_files()
    ensures { RemountedVolumeShowsItsFiles }
{}

/// What a volume keeps that is not mounted stays through each step that neither formats it nor mounts it, the end too: its folders, its files and their bytes.
pub fn kept_files_stay()
    ensures { KeptFilesStay }
{}

/// It stays through any such steps that are taken one after the other.
pub fn kept_files_stay_later()
    ensures { KeptFilesStayLater }
{}

/// A volume that is unmounted and mounted again after any such steps shows the same folders and the same files, with the same bytes.
pub fn volume_mounted_later_shows_its_files()
    ensures { VolumeMountedLaterShowsItsFiles }
{}

/// Every step goes on behind what character devices had at entry: it fits the same marks, answers the same, and leaves the world behind the same bytes.
pub fn steps_go_on_behind()
    ensures { StepsGoOnBehind }
{}

/// Steps that may be taken one after the other go on behind what character devices had at entry, with the same answers.
pub fn runs_go_on_behind()
    ensures { RunsGoOnBehind }
{}

/// Each consistent world has one world behind what character devices had at entry, and that one is consistent.
pub fn worlds_have_one_behind()
    ensures { WorldsHaveOneBehind }
{}

/// The world at the start in which character devices have output is the one that begins without, behind that output.
pub fn opening_is_behind()
    ensures { OpeningIsBehind }
{}

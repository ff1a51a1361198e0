//! The laws of the definitions: each function states one, and does nothing.

ghost use Rattle.vfs_model.specs.CacheLaws.{CacheStaysSmall, CallsAddUp, FailedCallStopsStep, ReclaimLeavesFew, RefusedStepCallsNoDevice, WriteBackLeavesNoneDirty};
ghost use Rattle.vfs_model.specs.ConsistencyLaws.{OpeningWorldIsConsistent, StandingMountsAreApart};
ghost use Rattle.vfs_model.specs.DeckLaws.{ReadScriptIsInForm};
ghost use Rattle.vfs_model.specs.DescriptorLaws.{StaysSound};
ghost use Rattle.vfs_model.specs.FaultCounts.{FaultMarksHaveFaults};
ghost use Rattle.vfs_model.specs.HolderLaws.{HoldersAreCounted};
ghost use Rattle.vfs_model.specs.ShellLaws.{AddedMappingGoesBack, DupSharesFile, LineTakesReplies, WholeLinesEnd};
ghost use Rattle.vfs_model.specs.Laws.{RefusedStepChangesNothing, WorkerChangesNothing, CoveringMountIsLongest, RefusedWorldStaysSame, PutNodeStands, TakenNodeIsGone, NormalPathHasNormalNames, PrintedPathNamesItself, MountShowsItsTree, UnmountLeavesOtherMounts, MovedSubtreeStands, RenamedSubtreeStands, EmptyMountChangesNoNode};
ghost use Rattle.vfs_model.specs.FileLaws.{StepChangesOneFile, WriteMovesItsPiece, WrittenIsRead};
ghost use Rattle.vfs_model.specs.PageList.{WordsTellPages};
ghost use Rattle.vfs_model.specs.TextLaws.{ShownBytesTellBytes, BadLineNeedsNoLaterByte};
ghost use Rattle.vfs_model.specs.RestLaws.{RestStaysSame, ShutdownLeavesRest};
ghost use Rattle.vfs_model.specs.RowShape.{RefusalsNeedNoBytes};
ghost use Rattle.vfs_model.specs.Sizes.{StepKeepsSizes, MarkedStepKeepsSizes, OpeningIsSized, TellsShortFolders};
ghost use Rattle.vfs_model.specs.Tally.{AskedStepsLeadOn};
ghost use Rattle.vfs_model.specs.TranscriptLaws.{PrintedScheduleIsRead, ReadScheduleIsPrinted, TranscriptNeedsEachEntry, UndefinedTranscriptHasPlace, FrontHasTranscript, WholeScheduleEndsLast, ScriptSaysTurns, EachBlockShowsItsLine, ShownBlocksStay, PendingStepIsWanted, ScriptGoesOn};

/// A step of the namespace that is refused changes neither the namespace nor a row; Shutdown apart.
pub fn refused_step_changes_nothing()
    ensures { RefusedStepChangesNothing }
{}

/// A step that is refused changes nothing in the world; Shutdown apart.
pub fn refused_world_stays_same()
    ensures { RefusedWorldStaysSame }
{}

/// The worker's write-back and eviction change no byte and no name.
pub fn worker_changes_nothing()
    ensures { WorkerChangesNothing }
{}

/// The covering mount is the mount with the longest point that is a prefix of the path.
pub fn covering_mount_is_longest()
    ensures { CoveringMountIsLongest }
{}

/// A node put at a path that is no mount's point stands there, and no other path changes.
pub fn put_node_stands()
    ensures { PutNodeStands }
{}

/// A node taken away from a path that is no mount's point is gone, and no other path changes.
pub fn taken_node_is_gone()
    ensures { TakenNodeIsGone }
{}

/// A normal path has no part that is empty, `.` or `..`, and is short enough to be asked for.
pub fn normal_path_has_normal_names()
    ensures { NormalPathHasNormalNames }
{}

/// The printed form of a normal path names that path again.
pub fn printed_path_names_itself()
    ensures { PrintedPathNamesItself }
{}

/// At and below its point a new mount shows its own tree, and no other path changes.
pub fn mount_shows_its_tree()
    ensures { MountShowsItsTree }
{}

/// A mount that goes changes no path that another mount covers.
pub fn unmount_leaves_other_mounts()
    ensures { UnmountLeavesOtherMounts }
{}

/// A subtree that has moved stands at its new path, and no path but the old and the new one changes.
pub fn moved_subtree_stands()
    ensures { MovedSubtreeStands }
{}

/// After a rename the subtree stands at its new path, and no path but the old and the new one changes.
pub fn renamed_subtree_stands()
    ensures { RenamedSubtreeStands }
{}

/// The world at the start is consistent, whatever devices there are, where each rom is a tree.
pub fn opening_world_is_consistent()
    ensures { OpeningWorldIsConsistent }
{}

/// A mount without nodes, on a folder without nodes, changes no path.
pub fn empty_mount_changes_no_node()
    ensures { EmptyMountChangesNoNode }
{}

/// In a consistent world no two points have mounts of one number.
pub fn standing_mounts_are_apart()
    ensures { StandingMountsAreApart }
{}

/// A printed schedule reads back as itself, with its line feed and without it.
pub fn printed_schedule_is_read()
    ensures { PrintedScheduleIsRead }
{}

/// What is read as a schedule is a printed one, with its line feed or without it.
pub fn read_schedule_is_printed()
    ensures { ReadScheduleIsPrinted }
{}

/// A script has a transcript exactly where each entry of the schedule can be taken after those before it.
pub fn transcript_needs_each_entry()
    ensures { TranscriptNeedsEachEntry }
{}

/// Where a script has no transcript, the first entry that can't be taken has the place that is told.
pub fn undefined_transcript_has_place()
    ensures { UndefinedTranscriptHasPlace }
{}

/// A front of a schedule that has a transcript has one.
pub fn front_has_transcript()
    ensures { FrontHasTranscript }
{}

/// A schedule whose entries can be taken is whole exactly where its last entry is the end.
pub fn whole_schedule_ends_last()
    ensures { WholeScheduleEndsLast }
{}

/// In a shell or a replay the script and the marks leave no choice of who takes which step.
pub fn script_says_turns()
    ensures { ScriptSaysTurns }
{}

/// A session's blocks are those of its lines in their order, each after the lines before it.
pub fn each_block_shows_its_line()
    ensures { EachBlockShowsItsLine }
{}

/// What a session was shown stays: more of a schedule adds blocks behind those that are there.
pub fn shown_blocks_stay()
    ensures { ShownBlocksStay }
{}

/// The step that a pending command asks is the one that its session wants, whatever is posted behind it.
pub fn pending_step_is_wanted()
    ensures { PendingStepIsWanted }
{}

/// A shell and a replay never get stuck: whoever's turn it is has a step to take, until the schedule is whole.
pub fn script_goes_on()
    ensures { ScriptGoesOn }
{}

/// A script that is read has its numbers in their ranges, a manifest for each rom, and no name of a rom twice.
pub fn read_script_is_in_form()
    ensures { ReadScriptIsInForm }
{}

/// While a line of the shell asks it has taken in all replies, and once it is finished it looks at no further one.
pub fn line_takes_replies()
    ensures { LineTakesReplies }
{}

/// A text that is shown in a block is empty, or its last byte is a line feed.
pub fn whole_lines_end()
    ensures { WholeLinesEnd }
{}

/// A descriptor made by dup leads to the same open file, and so has its place; no other descriptor changes.
pub fn dup_shares_file()
    ensures { DupSharesFile }
{}

/// A mapping that was added is there, and taken away again it leaves the mappings as before.
pub fn added_mapping_goes_back()
    ensures { AddedMappingGoesBack }
{}

/// The open files of a shell are sound at the start, and stay so: a file is open exactly where a descriptor leads to it.
pub fn open_files_stay_sound()
    ensures { StaysSound }
{}

/// No byte of a file decides what its steps are refused with.
pub fn refusals_need_no_bytes()
    ensures { RefusalsNeedNoBytes }
{}

/// A step of a file that is refused calls no device.
pub fn refused_step_calls_no_device()
    ensures { RefusedStepCallsNoDevice }
{}

/// A call of a device that fails stops its step exactly where the step makes it, behind the calls before it.
pub fn failed_call_stops_step()
    ensures { FailedCallStopsStep }
{}

/// The steps that a schedule stands for lead to where its script stands after it.
pub fn asked_steps_lead_on()
    ensures { AskedStepsLeadOn }
{}

/// A step leaves at most 32 pages of a file in memory and none twice, also where a failed call stops it.
pub fn cache_stays_small()
    ensures { CacheStaysSmall }
{}

/// After a reclaim at most 8 pages of a file are in memory.
pub fn reclaim_leaves_few()
    ensures { ReclaimLeavesFew }
{}

/// After a write-back no page in memory is dirty.
pub fn write_back_leaves_none_dirty()
    ensures { WriteBackLeavesNoneDirty }
{}

/// The calls of steps that are taken one after the other add up.
pub fn calls_add_up()
    ensures { CallsAddUp }
{}

/// A write leaves its piece at its offset, zeros in a gap before it, and every other byte as it was.
pub fn write_moves_its_piece()
    ensures { WriteMovesItsPiece }
{}

/// A piece that was written whole is read again.
pub fn written_is_read()
    ensures { WrittenIsRead }
{}

/// A step of one file changes no other file, no name and nothing that lies at home.
pub fn step_changes_one_file()
    ensures { StepChangesOneFile }
{}

/// The stored pages of a file in rising order, and the sixteen words of their set, tell the same.
pub fn words_tell_pages()
    ensures { WordsTellPages }
{}

/// A schedule has no more marks of a device's fault than the devices counted faults along it, while no count stands at its last value.
pub fn fault_marks_have_faults()
    ensures { FaultMarksHaveFaults }
{}

/// Each path's line tells how many hold it: references to the file that stands there, sessions that stand in it, mounts on it.
pub fn holders_are_counted()
    ensures { HoldersAreCounted }
{}

/// A step that is answered makes no list of the namespace longer than it may be.
pub fn step_keeps_sizes()
    ensures { StepKeepsSizes }
{}

/// Nor does a step under a mark, or the end.
pub fn marked_step_keeps_sizes()
    ensures { MarkedStepKeepsSizes }
{}

/// The namespace at the start has the sizes that steps keep, where no rom and no volume is too large.
pub fn opening_is_sized()
    ensures { OpeningIsSized }
{}

/// Only Chdir and Cwd tell a folder, and its printed path is not too long.
pub fn tells_short_folders()
    ensures { TellsShortFolders }
{}

/// Different bytes are shown differently.
pub fn shown_bytes_tell_bytes()
    ensures { ShownBytesTellBytes }
{}

/// The first bad line of an input or of a script depends on no byte behind the lines that were read whole.
pub fn bad_line_needs_no_later_byte()
    ensures { BadLineNeedsNoLaterByte }
{}

/// After a Shutdown that memory allows, no reference is left and each session is in `/`, whatever was in use before.
pub fn shutdown_leaves_rest()
    ensures { ShutdownLeavesRest }
{}

/// Where nothing is in use, the end has nothing to bring to rest: it unmounts, and frees nothing before.
pub fn rest_stays_same()
    ensures { RestStaysSame }
{}

//! What a caller keeps of a session that it runs: each function states a law, and does nothing.

ghost use Rattle.msh_session.specs.Following.{NewSessionFollows, PostedLineIsFollowed, TakenReplyIsFollowed, PendingStepIsNext, DoneSessionLeaves, MadeExitIsFollowed, ExitStepIsNext, AllExitsAreLeft, AbandonedSessionLeaves};

/// A new session follows no line and no reply.
pub fn new_session_follows()
    ensures { NewSessionFollows }
{}

/// A session to which a line is posted behind others follows them all.
pub fn posted_line_is_followed()
    ensures { PostedLineIsFollowed }
{}

/// A session that takes in a reply follows it.
pub fn taken_reply_is_followed()
    ensures { TakenReplyIsFollowed }
{}

/// The step that a session's pending command asks is the one that its lines and replies want next.
pub fn pending_step_is_next()
    ensures { PendingStepIsNext }
{}

/// A session that has done all lines begins to leave.
pub fn done_session_leaves()
    ensures { DoneSessionLeaves }
{}

/// A session that makes an exit step goes on leaving, whatever the reply.
pub fn made_exit_is_followed()
    ensures { MadeExitIsFollowed }
{}

/// The first exit step that is left is the one that a session's lines and replies want next.
pub fn exit_step_is_next()
    ensures { ExitStepIsNext }
{}

/// Before any exit step is made all are left, those of a command that was given up first.
pub fn all_exits_are_left()
    ensures { AllExitsAreLeft }
{}

/// A session whose command is given up makes the exit steps that its lines and replies want, the command's own
/// first.
pub fn abandoned_session_leaves()
    ensures { AbandonedSessionLeaves }
{}

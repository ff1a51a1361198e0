//! The laws of commands and of the session that asks them: each function states one, and does nothing.

ghost use Rattle.vfs_model.specs.CommandLaws.{CatShowsBytes, EchoAppendsText};
ghost use Rattle.vfs_model.specs.CopyLaws.{CopyMovesBytes};
ghost use Rattle.vfs_model.specs.ExitLaws.{ExitGivesUpAll};

/// `echo TEXT FILE`, alone and with room in the file, appends the text, closes the file and shows nothing.
pub fn echo_appends_text()
    ensures { EchoAppendsText }
{}

/// `cat FILE`, alone, reads the file until nothing comes, closes it and shows all its bytes.
pub fn cat_shows_bytes()
    ensures { CatShowsBytes }
{}

/// `cp SRC DST`, alone and with room in the destination, leaves the bytes of one file in the other, closes both and shows nothing.
pub fn copy_moves_bytes()
    ensures { CopyMovesBytes }
{}

/// A session that leaves gives up each of its open files and mappings, and goes back to `/`.
pub fn exit_gives_up_all()
    ensures { ExitGivesUpAll }
{}

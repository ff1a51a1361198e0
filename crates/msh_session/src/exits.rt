ghost use Rattle.std.specs.Prelude.{◌≡◌};
ghost use Rattle.msh_session.specs.SessionTalks.{no_exits};

/// How many exit steps of each kind a session has made.
#[derive(Clone, Copy)]
pub struct Exits {
    /// Those that give back the references of a command that was given up.
    pub own: usize,
    /// Those that give up mappings.
    pub mappings: usize,
    /// Those that close open files.
    pub files: usize,
    /// Whether the working directory is left.
    pub is_home: bool,
}

impl Exits {
    /// None is made.
    pub fn none() -> Exits
        ensures { result ≡ no_exits }
    {
        Exits {
            own: 0,
            mappings: 0,
            files: 0,
            is_home: false,
        }
    }
}

//! What each argument is for.

ghost use Rattle.std.specs.Prelude.{◌≡◌, ◌↔◌, IsTrue};
ghost use Rattle.tl_arguments.specs.Arranged.{own_role, role_after, is_option, is_name, is_dashed};
ghost use Rattle.tl_arguments.specs.Progress.{is_progress};

/// What an argument is for.
#[derive(Clone, Copy)]
pub enum Role {
    /// A command, a number or the name of a file, where options may stand too.
    Plain,
    /// An option that stands alone, or what looks like an option and is none.
    Flag,
    /// An option whose value is the next argument.
    Valued,
    /// The value of the option before it.
    Value,
    /// `--progress`, which the program itself takes: it is no option of a command.
    Progress,
    /// `--`, after which there are no options.
    End,
    /// What stands after `--`.
    Name,
}

impl Role {
    /// What the argument is for, where options may stand.
    fn own(word: &str) -> Role
        ensures { result ≡ own_role word.now }
    {
        match word {
            "--" => Role::End,
            "--progress" => Role::Progress,
            "--style" | "--break" | "--budget" | "--solver" | "--workers" | "--least" | "--align" =>
                Role::Valued,
            _ if is_dashed(word) => Role::Flag,
            _ => Role::Plain,
        }
    }

    /// What the argument is for, after one that is for this.
    pub(crate) fn after(self, word: &str) -> Role
        ensures { result ≡ role_after self word.now }
    {
        match self {
            Role::Valued => Role::Value,
            Role::End | Role::Name => Role::Name,
            Role::Plain | Role::Flag | Role::Value | Role::Progress => Role::own(word),
        }
    }

    /// Whether it is an option of a command or the value of one.
    pub(crate) fn is_option(self) -> bool
        ensures { result ≡ is_option self }
    {
        matches!(self, Role::Flag | Role::Valued | Role::Value)
    }

    /// Whether it is a command, a number or the name of a file.
    pub(crate) fn is_name(self) -> bool
        ensures { result ≡ is_name self }
    {
        matches!(self, Role::Plain | Role::Name)
    }

    /// Whether it is `--progress`.
    pub(crate) fn is_progress(self) -> bool
        ensures { result ≡ is_progress self }
    {
        matches!(self, Role::Progress)
    }
}

/// Whether the argument begins as an option does.
pub(crate) fn is_dashed(word: &str) -> bool
    ensures { result ≡ is_dashed word.now }
{
    word.as_bytes().starts_with(b"--")
}

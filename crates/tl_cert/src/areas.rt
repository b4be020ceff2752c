//! Where log lines that end by `area` may stand, and where one has to.

ghost use Rattle.std.specs.Prelude.{◌≡◌};
ghost use Rattle.tl_cert.specs.inner.Areas.{before_others, for_part, after};

/// Whether lines that are still to be read may end by `area`. The text of a certificate is of
/// version 2 exactly where one does.
#[derive(Clone, Copy)]
pub(crate) enum Areas {
    /// None does: the text is of version 1.
    Never,
    /// Any may.
    Free,
    /// At least one has to.
    Owed,
}

impl Areas {
    /// What is asked of a part that others follow: what is owed may come with them.
    fn before_others(self) -> Areas
        ensures { result ≡ before_others self }
    {
        match self {
            Areas::Never => Areas::Never,
            Areas::Free | Areas::Owed => Areas::Free,
        }
    }

    /// What is asked of a part that so many others may follow.
    pub(crate) fn for_part(self, others: usize) -> Areas
        ensures { result ≡ for_part others self }
    {
        if others == 0 {
            self
        } else {
            self.before_others()
        }
    }

    /// What is asked of what follows a part in which a line ends by `area`, or none does.
    pub(crate) fn after(self, has_area: bool) -> Areas
        ensures { result ≡ after self has_area }
    {
        match self {
            Areas::Owed if has_area => Areas::Free,
            other => other,
        }
    }
}

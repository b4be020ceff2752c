//! The exit statuses.

ghost use Rattle.std.specs.Prelude.{◌≡◌};

/// How the program ends. The numbers are its exit statuses; a number that is missing is not used.
#[derive(Clone, Copy)]
pub enum Status {
    /// The page is stored, or the certificate is valid, and no layout is lower.
    Lowest = 0,
    /// The arguments are invalid: docs/COMMAND.md.
    Usage = 2,
    /// The page is stored, or the certificate is valid, and a layout may be lower.
    Bounded = 3,
    /// No layout fits the page.
    Narrow = 4,
    /// The file is no table: no document, or no records of one.
    BadInput = 5,
    /// A limit is passed.
    Limit = 6,
    /// The file could not be read.
    ReadFault = 7,
    /// A file, or standard output, could not be written.
    WriteFault = 8,
    /// Out of memory.
    Memory = 9,
    /// The certificate is not valid.
    Rejected = 10,
    /// No page of any width holds the table in so few lines.
    TooTall = 12,
}

impl Status {
    ghost use Rattle.tl_program.specs.Messages.{status_number};

    /// The exit status.
    pub fn number(self) -> u8
        ensures { result ≡ status_number self }
    {
        self as u8
    }
}

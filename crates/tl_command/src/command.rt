//! The commands: how each is spelled, which number, how many names and which options it takes.

use crate::numbers::number_within;
use crate::options::Choice;
use tl_base::{MAX_HEIGHT, MAX_PAGE_WIDTH};

/// A command of the command line.
#[derive(Clone, Copy)]
pub enum Command {
    /// `lay WIDTH IN PAGE [CERT]`: lays the table of a file out.
    Lay,
    /// `narrow HEIGHT IN PAGE [CERT [LESS [SPENT]]]`: lays the table of a file out in at most so many
    /// lines, on the narrowest page.
    Narrow,
    /// `tidy WIDTH IN PAGE [CERT [LESS [SPENT]]]`: lays the table of a file out as low as any layout, on
    /// the narrowest page, the same whatever search is named.
    Tidy,
    /// `check WIDTH IN CERT`: checks a certificate.
    Check,
    /// `demo NUMBER`: lays out a table that is made from a number.
    Demo,
}

impl Command {
    ghost use Rattle.std.specs.Prelude.{◌≡◌, ◌≢◌, ℕ, IfSome, IfNone, decimal};
    ghost use Rattle.tl_command.specs.Command.{word_of_command, least_number, most_number, IsNumberOf};
    ghost use Rattle.tl_command.specs.Command.{fewest_names, most_names, takes};

    /// The command that the argument spells.
    pub(crate) fn read(word: &str) -> Option<Command>
        ensures spelled { IfSome result (λ command. word.now ≡ word_of_command command) }
        ensures none { IfNone result ((command : Command) → word.now ≢ word_of_command command) }
    {
        match word {
            "lay" => Some(Command::Lay),
            "narrow" => Some(Command::Narrow),
            "tidy" => Some(Command::Tidy),
            "check" => Some(Command::Check),
            "demo" => Some(Command::Demo),
            _ => None,
        }
    }

    fn least_number(self) -> u32
        ensures { result ≡ least_number self }
    {
        match self {
            Command::Lay | Command::Tidy | Command::Check => 1,
            Command::Narrow | Command::Demo => 0,
        }
    }

    fn most_number(self) -> u32
        ensures { result ≡ most_number self }
    {
        match self {
            Command::Lay | Command::Tidy | Command::Check => MAX_PAGE_WIDTH,
            Command::Narrow => MAX_HEIGHT,
            Command::Demo => u32::MAX,
        }
    }

    /// The number of the command whose canonical decimal the argument is.
    pub(crate) fn number(self, word: &str) -> Option<u32>
        ensures number { IfSome result (λ number. word.now ≡ decimal number) }
        ensures range { IfSome result (IsNumberOf self) }
        ensures none { IfNone result ((number : ℕ) → IsNumberOf self number → word.now ≢ decimal number) }
    {
        number_within(word, self.least_number(), self.most_number())
    }

    pub(crate) fn fewest_names(self) -> usize
        ensures { result ≡ fewest_names self }
    {
        match self {
            Command::Lay | Command::Narrow | Command::Tidy | Command::Check => 2,
            Command::Demo => 0,
        }
    }

    pub(crate) fn most_names(self) -> usize
        ensures { result ≡ most_names self }
    {
        match self {
            Command::Lay => 3,
            Command::Narrow | Command::Tidy => 5,
            Command::Check => 2,
            Command::Demo => 0,
        }
    }

    /// Whether the command takes this option.
    pub(crate) fn takes(self, choice: &Choice) -> bool
        ensures { result ≡ takes self choice.now }
    {
        match self {
            Command::Lay | Command::Narrow | Command::Tidy => true,
            Command::Check => match choice {
                Choice::Style(_) | Choice::Breaking(_) | Choice::Budget(_) => true,
                Choice::Csv | Choice::Head | Choice::Least(_) | Choice::Workers(_) => true,
                Choice::Search(_) | Choice::Align(_) | Choice::Trim | Choice::Html => false,
            },
            Command::Demo => false,
        }
    }
}

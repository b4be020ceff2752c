//! What is asked of the program itself.

ghost use Rattle.std.specs.Prelude.{◌≡◌, string_bytes, map};
ghost use Rattle.tl_arguments.specs.Question.{question_of, asked};

/// The version of the program, which is that of the Python package.
pub const VERSION: &str = "1.0";

/// What is asked of the program itself, in place of a command.
#[derive(Clone, Copy)]
pub enum Question {
    /// `--help` or `-h`: how the program is used.
    Help,
    /// `--version`: which one it is.
    Version,
}

impl Question {
    /// The question that the argument is.
    fn read(word: &str) -> Option<Question>
        ensures { result ≡ question_of word.now }
    {
        match word {
            "-h" | "--help" => Some(Question::Help),
            "--version" => Some(Question::Version),
            _ => None,
        }
    }

    /// The question that the first argument is; those after it say nothing then.
    pub fn asked(words: &[String]) -> Option<Question>
        ensures { result ≡ asked (map string_bytes words.now) }
    {
        match words.first() {
            Some(word) => Question::read(word.as_str()),
            None => None,
        }
    }
}

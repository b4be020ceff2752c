//! The options of a command: in any order, each at most once.

ghost use Rattle.std.specs.Prelude.{◌≡◌, ◌≢◌, ◌⊎◌, ◌↔◌, ◌++◌, ◌∷◌, ◌<◌, ℕ, true, false, List, [], map};
ghost use Rattle.std.specs.Prelude.{string_bytes, length, IsTrue, IfSome, IfNone};
ghost use Rattle.tl_command.specs.declared.options.Choice.{Choice};
ghost use Rattle.tl_command.specs.declared.options.Options.{Options};
ghost use Rattle.tl_command.specs.Options.{name_of, option_words, IsInRange, IsGiven, IsOptionOf, AreOptions};
ghost use Rattle.tl_command.specs.Options.{AreOfCsv, speaks_of_csv};

use crate::command::Command;
use crate::values::{
    align_named, breaking_named, budget_named, least_named, search_named, style_named,
    workers_named,
};
use tl_base::{Search, Style};
use tl_floors::Floors;
use tl_sides::Align;

/// How many workers there may be.
pub const MAX_WORKERS: u32 = 16;

/// Which words may break.
#[derive(Clone, Copy)]
pub enum BreakRule {
    /// None: a line ends between words alone.
    Words,
    /// Each, between any two of its grapheme clusters.
    Any,
    /// Those that are wider than so many columns, at most [`tl_base::MAX_PAGE_WIDTH`].
    Wider(u32),
    /// As few as can be so that a page of the width holds the table.
    Fit,
    /// Those that are wider than so many columns: what [`BreakRule::Fit`] comes to for a file whose words
    /// do not all fit whole. No argument spells it.
    Fitted(u32),
}

/// An option that is given.
#[derive(Clone, Copy)]
pub enum Choice {
    /// `--style plain|compact|rule|apart|frame|grid|box`.
    Style(Style),
    /// `--break words|any|fit|N`, with N at most [`tl_base::MAX_PAGE_WIDTH`].
    Breaking(BreakRule),
    /// `--budget N`, with N at most [`tl_base::MAX_BUDGET`].
    Budget(u32),
    /// `--solver plain|best|learn|rounds`.
    Search(Search),
    /// `--workers K`, with K from 1 to [`MAX_WORKERS`].
    Workers(u32),
    /// `--csv`.
    Csv,
    /// `--head`.
    Head,
    /// `--least LIST`, with LIST one number or more, and a comma between each two.
    Least(Floors),
    /// `--align LIST`, with LIST one of the letters `l`, `r` and `c` or more, and a comma between each two;
    /// or `--align auto` or `--align cells`.
    Align(Align),
    /// `--trim`.
    Trim,
    /// `--html`.
    Html,
}

/// The options of a command, each as it is given, if it is.
#[derive(Clone, Copy)]
pub struct Options {
    /// How the table is drawn.
    pub style: Option<Style>,
    /// Which words may break.
    pub breaking: Option<BreakRule>,
    /// How many cuts each search may make, at most [`tl_base::MAX_BUDGET`].
    pub budget: Option<u32>,
    /// Which search finds the layout.
    pub search: Option<Search>,
    /// How many workers there are, from 1 to [`MAX_WORKERS`].
    pub workers: Option<u32>,
    /// Whether the file is CSV.
    pub csv: bool,
    /// Whether the first record of a CSV file is a head.
    pub head: bool,
    /// The least widths of the first columns of a CSV file.
    pub least: Option<Floors>,
    /// On which side the lines of the cells stand on a page of text.
    pub align: Option<Align>,
    /// Whether the lines of a page of text end without spaces.
    pub trim: bool,
    /// Whether the page is HTML.
    pub html: bool,
}

impl Choice {
    /// The option of the command with which the arguments begin, and the arguments after it.
    fn read(command: Command, words: &[String]) -> Option<(Choice, &[String])>
        ensures option { IfSome result (λ r. IsOptionOf command r.0) }
        ensures spelled { IfSome result (λ r. map string_bytes words.now
            ≡ option_words r.0 ++ map string_bytes r.1.now) }
        ensures shorter { IfSome result (λ r. length r.1.now < length words.now) }
        ensures none { IfNone result ((choice : Choice) (rest : List (List ℕ)) → IsOptionOf command choice
            → map string_bytes words.now ≡ option_words choice ++ rest → ⊥) }
    {
        let Some((choice, rest)) = Choice::read_any(words) else {
            return None;
        };
        if !command.takes(&choice) {
            return None;
        }
        Some((choice, rest))
    }

    /// The option of any command with which the arguments begin, and the arguments after it.
    fn read_any(words: &[String]) -> Option<(Choice, &[String])>
        ensures range { IfSome result (λ r. IsInRange r.0) }
        ensures spelled { IfSome result (λ r. map string_bytes words.now
            ≡ option_words r.0 ++ map string_bytes r.1.now) }
        ensures shorter { IfSome result (λ r. length r.1.now < length words.now) }
        ensures none { IfNone result ((choice : Choice) (rest : List (List ℕ)) → IsInRange choice
            → map string_bytes words.now ≡ option_words choice ++ rest → ⊥) }
    {
        let [name, later @ ..] = words else {
            return None;
        };
        if let Some(flag) = flag_named(name.as_str()) {
            return Some((flag, later));
        }
        let [value, rest @ ..] = later else {
            return None;
        };
        let choice = Choice::with_value(name.as_str(), value.as_str())?;
        Some((choice, rest))
    }

    /// The option of this name with this value.
    fn with_value(name: &str, value: &str) -> Option<Choice>
        ensures range { IfSome result IsInRange }
        ensures spelled { IfSome result (λ choice. option_words choice ≡ name.now ∷ value.now ∷ []) }
        ensures none { IfNone result ((choice : Choice) → IsInRange choice
            → option_words choice ≡ name.now ∷ value.now ∷ [] → ⊥) }
    {
        match name {
            "--style" => style_named(value),
            "--break" => breaking_named(value),
            "--budget" => budget_named(value),
            "--solver" => search_named(value),
            "--workers" => workers_named(value),
            "--least" => least_named(value),
            "--align" => align_named(value),
            _ => None,
        }
    }
}

/// The option without a value that the argument names.
fn flag_named(name: &str) -> Option<Choice>
    ensures range { IfSome result IsInRange }
    ensures spelled { IfSome result (λ choice. option_words choice ≡ name.now ∷ []) }
    ensures none { IfNone result ((choice : Choice) → option_words choice ≢ name.now ∷ []) }
{
    match name {
        "--csv" => Some(Choice::Csv),
        "--head" => Some(Choice::Head),
        "--trim" => Some(Choice::Trim),
        "--html" => Some(Choice::Html),
        _ => None,
    }
}

impl Options {
    /// The options of a command that gives none.
    fn none() -> Options
        ensures { (choice : Choice) → IsGiven result choice → ⊥ }
    {
        Options {
            style: None,
            breaking: None,
            budget: None,
            search: None,
            workers: None,
            csv: false,
            head: false,
            least: None,
            align: None,
            trim: false,
            html: false,
        }
    }

    /// Whether an option of this name is given.
    fn has(&self, choice: &Choice) -> bool
        ensures yes { result ≡ true → (other : Choice) × IsGiven self.now other × (name_of other ≡ name_of choice.now) }
        ensures no { result ≡ false → (other : Choice) → IsGiven self.now other → name_of other ≢ name_of choice.now }
    {
        match choice {
            Choice::Style(_) => self.style.is_some(),
            Choice::Breaking(_) => self.breaking.is_some(),
            Choice::Budget(_) => self.budget.is_some(),
            Choice::Search(_) => self.search.is_some(),
            Choice::Workers(_) => self.workers.is_some(),
            Choice::Csv => self.csv,
            Choice::Head => self.head,
            Choice::Least(_) => self.least.is_some(),
            Choice::Align(_) => self.align.is_some(),
            Choice::Trim => self.trim,
            Choice::Html => self.html,
        }
    }

    /// The options with this one.
    fn with(self, choice: Choice) -> Options
        requires { (other : Choice) → IsGiven self other → name_of other ≢ name_of choice }
        ensures { (other : Choice) → IsGiven result other ↔ (IsGiven self other ⊎ (other ≡ choice)) }
    {
        let mut options = self;
        match choice {
            Choice::Style(style) => options.style = Some(style),
            Choice::Breaking(breaking) => options.breaking = Some(breaking),
            Choice::Budget(budget) => options.budget = Some(budget),
            Choice::Search(search) => options.search = Some(search),
            Choice::Workers(workers) => options.workers = Some(workers),
            Choice::Csv => options.csv = true,
            Choice::Head => options.head = true,
            Choice::Least(floors) => options.least = Some(floors),
            Choice::Align(align) => options.align = Some(align),
            Choice::Trim => options.trim = true,
            Choice::Html => options.html = true,
        }
        options
    }

    /// Whether an option that speaks of a CSV file is given.
    fn speak_of_csv(&self) -> bool
        ensures yes { result ≡ true → (choice : Choice) × IsGiven self.now choice × IsTrue (speaks_of_csv choice) }
        ensures no { result ≡ false → (choice : Choice) → IsGiven self.now choice → IsTrue (speaks_of_csv choice) → ⊥ }
    {
        self.head || self.least.is_some()
    }

    /// Whether those that speak of a CSV file are given with `--csv`.
    fn are_of_csv(&self) -> bool
        ensures { IsTrue result ↔ AreOfCsv self.now }
    {
        self.csv || !self.speak_of_csv()
    }

    /// The options of the command that the arguments spell, or `None` where they spell none.
    pub(crate) fn parse(command: Command, words: &[String]) -> Option<Options>
        ensures options { IfSome result (AreOptions command (map string_bytes words.now)) }
        ensures none { IfNone result ((options : Options)
            → AreOptions command (map string_bytes words.now) options → ⊥) }
    {
        let mut options = Options::none();
        let mut rest = words;
        while !rest.is_empty() {
            let Some((choice, later)) = Choice::read(command, rest) else {
                return None;
            };
            if options.has(&choice) {
                return None;
            }
            options = options.with(choice);
            rest = later;
        }
        if !options.are_of_csv() {
            return None;
        }
        Some(options)
    }
}

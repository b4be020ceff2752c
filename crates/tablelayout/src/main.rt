//! The program: it carries out the arguments of its command line, in the order in which a command takes them,
//! over the files of the system and standard output. Its one contract is that of `tl_program::run`, whose status it ends with.
#![tactic(auto)]

ghost use Rattle.std.specs.Prelude.{◌≡◌, ◌≢◌};
ghost use Rattle.std.specs.IoError.{error_kind};

mod progress;

use progress::Report;
use std::alloc::AllocError;
use std::env;
use std::io::{self, BufReader, ErrorKind};
use std::process::ExitCode;
use std::rt::Files;
use std::thread::Threads;
use tl_arguments::{Question, VERSION, arrange, asks_for_progress, complaint};
use tl_base::Gate;
use tl_batch::{Ending, asks_for_batch, batch};
use tl_command::{Ask, Command};
use tl_exchange::Streams;
use tl_files::{RealDesk, STANDARD_OUTPUT, shared_file, tell};
use tl_program::{Status, run};
use tl_solve::Watcher;

/// What `--help` prints.
const HELP: &str = "\
tablelayout lay WIDTH IN PAGE [CERT] [OPTION ..]
tablelayout narrow HEIGHT IN PAGE [CERT [LESS [SPENT]]] [OPTION ..]
tablelayout tidy WIDTH IN PAGE [CERT [LESS [SPENT]]] [OPTION ..]
tablelayout check WIDTH IN CERT [OPTION ..]
tablelayout demo NUMBER
tablelayout batch
The manual page says what each does, and what the options are.";

/// Carries out the arguments of the command line, or answers what is asked of the program itself. Where
/// the arguments cannot be had, nothing is printed.
fn main(rt: HostRuntime) -> ExitCode {
    let alloc = rt.alloc();
    let words = match arguments(&rt) {
        Ok(words) => words,
        Err(error) => return ExitCode::from(status_without_arguments(&error).number()),
    };
    if let Some(question) = Question::asked(words.as_slice()) {
        return ExitCode::from(answer(&rt, &rt.stderr(), question).number());
    }
    let Ok(arranged) = arrange(alloc, words.as_slice()) else {
        return ExitCode::from(Status::Memory.number());
    };
    let report = Report {
        rt: &rt,
        is_asked: asks_for_progress(words.as_slice()),
    };
    if asks_for_batch(arranged.as_slice()) {
        return ExitCode::from(answer_requests(&rt, &report).number());
    }
    let Ok(clash) = clash_of(&rt, arranged.as_slice()) else {
        return ExitCode::from(Status::Memory.number());
    };
    // Where two names are of one file nothing is asked for, so nothing is read or stored.
    let asked = if clash.is_some() {
        &[]
    } else {
        arranged.as_slice()
    };
    let mut desk = RealDesk::new(&rt, rt.stderr());
    let status = run(&rt, alloc, asked, &mut desk, &report);
    if status == Status::Usage.number() {
        complain(&rt, words.as_slice(), clash);
    }
    ExitCode::from(status)
}

/// What is wrong where a command would store a file over another one of its files, in one line without
/// its end: the two names of that one file. The error says that memory ran out.
fn clash_of(
    rt: &(impl Files + AllocGlobal),
    words: &[String],
) -> Result<Option<String>, AllocError> {
    let Some(ask) = Ask::parse(words) else {
        return Ok(None);
    };
    match ask.command {
        Command::Lay | Command::Narrow | Command::Tidy => shared_names(rt, ask.names),
        Command::Check | Command::Demo => Ok(None),
    }
}

/// That two of the names are of one file, if they are.
fn shared_names(
    rt: &(impl Files + AllocGlobal),
    names: &[String],
) -> Result<Option<String>, AllocError> {
    match shared_file(rt, names)? {
        Some((one, other)) => {
            let (one, other) = (&names[one], &names[other]);
            Ok(Some(format!(in rt.alloc(); "'{one}' and '{other}' are one file")?))
        }
        None => Ok(None),
    }
}

/// Answers the requests of standard input on standard output.
fn answer_requests(
    rt: &(impl Threads + Sync + Input + Print + AllocGlobal),
    report: &(impl Gate + Watcher),
) -> Ending {
    match BufReader::new(rt.alloc(), rt.reader()) {
        Ok(reader) => {
            let mut streams = Streams::new(reader, io::writer(rt));
            batch(rt, rt.alloc(), &mut streams, report)
        }
        Err(_) => Ending::Memory,
    }
}

/// Prints the answer to what is asked of the program itself.
fn answer(rt: &(impl Print + AllocGlobal), errors: &impl Print, question: Question) -> Status {
    let printed = match question {
        Question::Help => println!(rt; "{HELP}"),
        Question::Version => println!(rt; "tablelayout {VERSION}"),
    };
    match printed {
        Ok(()) => Status::Lowest,
        Err(error) => {
            tell(rt.alloc(), errors, STANDARD_OUTPUT, &error);
            Status::WriteFault
        }
    }
}

/// Says on standard error what is wrong with the arguments: the clash of two names, if there is one.
/// Where that fails, the status says enough.
fn complain(rt: &(impl Eprint + AllocGlobal), words: &[String], clash: Option<String>) {
    let text = match clash {
        Some(text) => Ok(text),
        None => complaint(rt.alloc(), words),
    };
    if let Ok(text) = text {
        let _ = eprintln!(rt; "tablelayout: {text}");
    }
}

/// The status where the arguments cannot be had: memory ran out, or there is another cause, such as
/// an argument that is not UTF-8.
fn status_without_arguments(error: &io::Error) -> Status
    ensures memory { error_kind error.now ≡ ErrorKind.OutOfMemory → result ≡ Status.Memory }
    ensures other { error_kind error.now ≢ ErrorKind.OutOfMemory → result ≡ Status.Usage }
{
    match error.kind() {
        ErrorKind::OutOfMemory => Status::Memory,
        _ => Status::Usage,
    }
}

/// The arguments after the program's name.
fn arguments(rt: &(impl std::rt::Env + AllocGlobal)) -> io::Result<Vec<String>> {
    env::args(rt)?
        .skip(1)
        .collect(rt.alloc())
        .map_err(io::Error::from)
}

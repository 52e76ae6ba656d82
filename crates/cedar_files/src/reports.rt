//! What a run prints.
use crate::counts::FAILED;
use crate::diff::write_diff;
use crate::fault::{ShownBracket, ShownFault};
use crate::names::{CommandText, JsonText, Shown};
use crate::options::{Format, Options};
use crate::places::{Place, place_after};
use cedar_faults::listing::first_faults;
use cedar_policy_formatter::FormatError;
use std::alloc::AllocError;
use std::io::{BufWriter, ErrorKind, IsTerminal, Write};
use std::rt::Stdout;
use std::time::{Duration, Instant};
use std::{fmt, io};

// How often the progress is shown, in milliseconds.
const PAUSE: u64 = 100;

// The most faults of a text that are printed for people, and for programs.
const MOST_FOR_PEOPLE: usize = 10;

const MOST_FOR_PROGRAMS: usize = 100;

/// What is said about a file.
#[derive(Clone, Copy)]
pub enum Kind {
    /// It isn't formatted.
    Unformatted,
    /// It was replaced.
    Replaced,
    /// It is refused.
    Refused,
    /// It couldn't be read or replaced.
    Failed,
    /// Something that doesn't matter to the status.
    Note,
}

/// Something that is said about a file.
#[derive(Clone, Copy)]
pub struct Remark<'a> {
    pub kind: Kind,
    pub file: &'a str,
    pub place: Option<Place>,
    pub message: &'a str,
}

/// Prints what a run has to say. Names of files and, in a format for programs, all else go to standard output; faults go to
/// standard error.
#[derive(Drop)]
pub struct Reports<'a> {
    rt: &'a HostRuntime,
    out: BufWriter<Stdout>,
    format: Format,
    // What follows a name.
    end: &'static str,
    // Whether standard error is a terminal, where a fault is followed by its line.
    is_watched: bool,
    shows_progress: bool,
    // When the progress was shown last, if it stands there.
    shown: Option<Instant>,
    is_shown: bool,
    // The first error of printing.
    fault: Option<io::Error>,
}

impl<'a> Reports<'a> {
    /// The reports of a run with these options.
    pub fn new(rt: &'a HostRuntime, options: &Options<'_>) -> io::Result<Reports<'a>> {
        let is_watched = rt.stderr().is_terminal();
        Ok(Reports {
            rt,
            out: BufWriter::new(rt.alloc(), rt.stdout())?,
            format: options.format,
            end: if options.ends_with_zero { "\0" } else { "\n" },
            is_watched,
            shows_progress: is_watched && !options.quiet,
            shown: None,
            is_shown: false,
            fault: None,
        })
    }

    /// Whether something couldn't be printed.
    pub fn is_broken(&self) -> bool {
        self.fault.is_some()
    }

    /// Prints a remark.
    pub fn add(&mut self, remark: &Remark<'_>) {
        self.add_with(remark, None);
    }

    /// Prints a remark about a file as a whole.
    pub fn tell(&mut self, kind: Kind, file: &str, message: &str) {
        self.add(&Remark {
            kind,
            file,
            place: None,
            message,
        });
    }

    // Prints a remark. An object of JSON also tells the bracket that a fault leaves open.
    fn add_with(&mut self, remark: &Remark<'_>, bracket: Option<&ShownBracket>) {
        self.hide_progress();
        let printed = match self.format {
            Format::Text => self.print_text(remark),
            Format::Github => self.print_command(remark),
            Format::Json => self.print_json(remark, bracket),
        };
        self.keep(printed);
    }

    /// Prints why a text is refused: its faults, for people the first ten, or why it couldn't be formatted. Without memory
    /// for its faults that is said, and where and why it was refused.
    pub fn refuse(&mut self, file: &str, text: &str, error: FormatError) {
        let place = place_of(text, error);
        if place.is_some() {
            if self.print_faults(file, text).is_ok() {
                return;
            }
            self.tell(
                Kind::Failed,
                file,
                "out of memory, so not all its faults are reported",
            );
        }
        self.add(&Remark {
            kind: match error {
                FormatError::OutOfMemory => Kind::Failed,
                _ => Kind::Refused,
            },
            file,
            place,
            message: reason_of(error),
        });
    }

    /// Prints that a file couldn't be read or written, or something else that failed, and why.
    pub fn fail(&mut self, file: &str, what: &str, error: &io::Error) {
        match format!(in self.rt.alloc(); "{what}{}", Why(error)) {
            Ok(message) => self.tell(Kind::Failed, file, message.as_str()),
            Err(_) => self.tell(Kind::Failed, file, "out of memory"),
        }
    }

    /// Prints the difference between a file and its output.
    pub fn diff(&mut self, file: &str, before: &str, after: &str) {
        self.hide_progress();
        let printed = write_diff(self.rt.alloc(), &mut self.out, file, before, after);
        if let Err(error) = &printed {
            if error.kind() == ErrorKind::OutOfMemory {
                self.tell(Kind::Failed, file, "out of memory");
            }
        }
        self.keep(printed);
    }

    /// Prints a line to standard error.
    pub fn say(&mut self, line: &str) {
        self.hide_progress();
        let printed = write!(self.rt.stderr(), "{line}\n");
        self.keep(printed);
    }

    /// Shows how many files are done, if that is wanted, in a line that the next one replaces.
    pub fn show_progress(&mut self, done: usize, all: usize) {
        if !self.shows_progress {
            return;
        }
        let Ok(now) = Instant::now(self.rt) else {
            return;
        };
        if let Some(shown) = self.shown {
            if now.saturating_duration_since(shown) < Duration::from_millis(PAUSE) {
                return;
            }
        }
        self.shown = Some(now);
        self.is_shown = true;
        let _ = write!(self.rt.stderr(), "\r{done} of {all} files");
    }

    /// Ends the reports, and returns whether all were printed. If not, why is said on standard error.
    pub fn end(&mut self) -> bool {
        self.hide_progress();
        match &self.fault {
            Some(error) => {
                say_unwritten(self.rt, error);
                false
            }
            None => true,
        }
    }

    // Removes the line of the progress.
    fn hide_progress(&mut self) {
        if self.is_shown {
            self.is_shown = false;
            let _ = write!(self.rt.stderr(), "\r\x1b[K");
        }
    }

    // Keeps the first error.
    fn keep(&mut self, printed: io::Result<()>) {
        let printed = printed.and_then(|_| self.out.flush());
        if let Err(error) = printed {
            if self.fault.is_none() {
                self.fault = Some(error);
            }
        }
    }

    fn print_text(&mut self, remark: &Remark<'_>) -> io::Result<()> {
        let Remark { file, message, .. } = remark;
        match remark.kind {
            Kind::Unformatted | Kind::Replaced if self.end == "\0" => {
                write!(self.out, "{file}\0")
            }
            Kind::Unformatted | Kind::Replaced => write!(self.out, "{}\n", Shown(file)),
            Kind::Refused | Kind::Failed | Kind::Note => {
                let mut errors = self.rt.stderr();
                match remark.place {
                    Some(Place { line, column }) => {
                        write!(errors, "{}:{line}:{column}: {message}\n", Shown(file))
                    }
                    None => write!(errors, "{}: {message}\n", Shown(file)),
                }
            }
        }
    }

    // A workflow command of GitHub.
    fn print_command(&mut self, remark: &Remark<'_>) -> io::Result<()> {
        let command = match remark.kind {
            Kind::Unformatted | Kind::Refused | Kind::Failed => "error",
            Kind::Note => "warning",
            Kind::Replaced => "notice",
        };
        let file = remark.file.trim_start_matches("./");
        write!(self.out, "::{command} file={}", CommandText::Property(file))?;
        if let Some(Place { line, column }) = remark.place {
            write!(self.out, ",line={line},col={column}")?;
        }
        write!(self.out, "::{}\n", CommandText::Message(remark.message))
    }

    // An object of JSON, in a line.
    fn print_json(
        &mut self,
        remark: &Remark<'_>,
        bracket: Option<&ShownBracket>,
    ) -> io::Result<()> {
        let kind = match remark.kind {
            Kind::Unformatted => "unformatted",
            Kind::Replaced => "replaced",
            Kind::Refused => "refused",
            Kind::Failed => "failed",
            Kind::Note => "note",
        };
        write!(self.out, "{{\"file\":{}", JsonText(remark.file))?;
        if let Some(Place { line, column }) = remark.place {
            write!(self.out, ",\"line\":{line},\"column\":{column}")?;
        }
        write!(
            self.out,
            ",\"kind\":\"{kind}\",\"message\":{}",
            JsonText(remark.message)
        )?;
        if let Some(ShownBracket { place, message, .. }) = bracket {
            write!(
                self.out,
                ",\"unclosed\":{{\"line\":{},\"column\":{},\"message\":{}}}",
                place.line,
                place.column,
                JsonText(message.as_str())
            )?;
        }
        write!(self.out, "}}\n")
    }

    // Prints the first faults of a text, and whether there are more.
    fn print_faults(&mut self, file: &str, text: &str) -> Result<(), AllocError> {
        let alloc = self.rt.alloc();
        let most = match self.format {
            Format::Text => MOST_FOR_PEOPLE,
            Format::Github | Format::Json => MOST_FOR_PROGRAMS,
        };
        // (one more tells whether there are more)
        let faults = first_faults(alloc, text, most + 1)?;
        for fault in faults.iter().take(most) {
            self.print_fault(file, &ShownFault { text, fault })?;
        }
        if faults.len() > most {
            self.tell(Kind::Refused, file, "more faults, which are left out");
        }
        Ok(())
    }

    // Prints a fault, on a terminal with its line, and the bracket that it leaves open.
    fn print_fault(&mut self, file: &str, fault: &ShownFault<'_, '_>) -> Result<(), AllocError> {
        let alloc = self.rt.alloc();
        let reason = fault.reason(alloc)?;
        let bracket = fault.bracket(alloc)?;
        let line = fault.marked_line(alloc)?;
        let remark = Remark {
            kind: Kind::Refused,
            file,
            place: Some(fault.place()),
            message: reason.as_str(),
        };
        self.add_with(&remark, bracket.as_ref());
        self.print_line(line.as_str());
        match &bracket {
            Some(bracket) if self.format != Format::Json => self.print_bracket(file, bracket),
            _ => {}
        }
        Ok(())
    }

    // Prints a bracket that a fault leaves open, on a terminal with its line.
    fn print_bracket(&mut self, file: &str, bracket: &ShownBracket) {
        self.add(&Remark {
            kind: Kind::Note,
            file,
            place: Some(bracket.place),
            message: bracket.message.as_str(),
        });
        self.print_line(bracket.marked_line.as_str());
    }

    // Prints the line of a fault, on a terminal.
    fn print_line(&mut self, line: &str) {
        if self.is_watched && self.format == Format::Text {
            let printed = write!(self.rt.stderr(), "{line}\n");
            self.keep(printed);
        }
    }
}

// Where a text is refused, if it is.
fn place_of(text: &str, error: FormatError) -> Option<Place> {
    let (before, _) = text.split_at(text.floor_char_boundary(error.at()?));
    Some(place_after(before.as_bytes()))
}

// Why a text couldn't be formatted, in words that take no memory.
fn reason_of(error: FormatError) -> &'static str {
    match error {
        FormatError::UnknownCharacter { .. } => "unknown character",
        FormatError::UnfinishedString { .. } => "unfinished string",
        FormatError::NumberTooLarge { .. } => "number too large",
        FormatError::Grammar { .. } => "not in the grammar",
        FormatError::TooDeep { .. } => "nested too deeply",
        FormatError::NoDocument => "failed to produce doc",
        FormatError::Unsound => "formatter changed the policies",
        FormatError::OutOfMemory => "out of memory",
    }
}

/// The status after writing to standard output. If that couldn't be written, why is said on standard error.
pub fn status_of(rt: &HostRuntime, written: &io::Result<()>) -> u8 {
    match written {
        Ok(()) => 0,
        Err(error) => {
            say_unwritten(rt, error);
            FAILED
        }
    }
}

// Says on standard error that the output couldn't be written, and why.
fn say_unwritten(rt: &HostRuntime, error: &io::Error) {
    let _ = write!(
        rt.stderr(),
        "cedar-files: the output cannot be written: {}\n",
        Why(error)
    );
}

/// Why a call failed, in words.
#[derive(Clone, Copy)]
pub struct Why<'a>(pub &'a io::Error);

impl fmt::Display for Why<'_> {
    fn fmt<W: fmt::Write>(&self, f: &mut fmt::Formatter<W>) -> fmt::Result {
        match self.0.kind() {
            ErrorKind::NotFound => f.write_str("no such file"),
            ErrorKind::PermissionDenied => f.write_str("no permission"),
            ErrorKind::IsADirectory => f.write_str("it is a folder"),
            ErrorKind::StorageFull => f.write_str("the disk is full"),
            ErrorKind::ReadOnlyFilesystem => f.write_str("the disk is read-only"),
            ErrorKind::OutOfMemory => f.write_str("out of memory"),
            _ => write!(f, "{}", self.0),
        }
    }
}

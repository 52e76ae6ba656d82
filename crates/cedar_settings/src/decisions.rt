//! Which settings decide about the layout of a file.
ghost use Rattle.std.specs.Prelude.{◌≡◌, ◌++◌, IfOk, OnOk, [], filter_map, map};
ghost use Rattle.std.specs.List.{cons_option};
ghost use Rattle.cedar_settings.specs.Decisions.{applied_at, applied_in, applying, deciding, fault_at, indent_setting, problems_from, problems_in, tab_columns, width_setting, wrong_at};
ghost use Rattle.cedar_settings.specs.Settings.{entries_below, entries_in, entries_of};

use crate::files::{ConfigFile, Section};
use crate::lines::{Entry, Fault, Key, Value};
use std::alloc::{AllocError, Global};

/// The columns of a tab whose width isn't set.
const TAB_COLUMNS: u16 = 2;

/// The columns of a line without a limit.
const MOST_COLUMNS: u16 = 65535;

/// A line that applies to a file, and the number of its file, from 0 for the nearest one.
#[derive(Clone, Copy)]
pub struct Applied {
    pub file: usize,
    pub entry: Entry,
}

/// A setting of a layout, in columns, and where it was taken from.
#[derive(Clone, Copy)]
pub struct Setting {
    pub columns: u16,
    /// The number of its file, from 0 for the nearest one.
    pub file: usize,
    /// The number of its line, from 1.
    pub line: usize,
}

/// A line that is ignored, and why.
#[derive(Clone, Copy)]
pub struct Problem {
    /// The number of its file, from 0 for the nearest one.
    pub file: usize,
    /// The number of the line, from 1, or 0 for the file.
    pub line: usize,
    pub fault: Fault,
}

/// How a file is laid out.
#[derive(Drop)]
pub struct Decision {
    /// The indentation of a level. `None` if nothing is set.
    pub indent_width: Option<Setting>,
    /// The width of a line. `None` if nothing is set.
    pub line_width: Option<Setting>,
    /// The lines that are ignored: of each file those in no section, and then those of the sections that apply.
    pub problems: Vec<Problem>,
}

/// What these files, from the nearest one upward, say about the file with this absolute path. The last section that applies
/// decides, in the nearest file that has one, up to the first root. The only error is out of memory.
pub fn decide(alloc: Global, files: &[ConfigFile], path: &str) -> Result<Decision, AllocError>
    ensures indentation { IfOk result (λ d. d.indent_width ≡ indent_setting (applying files.now path.now)) }
    ensures width { IfOk result (λ d. d.line_width ≡ width_setting (applying files.now path.now)) }
    ensures problems { IfOk result (λ d. d.problems.items ≡ problems_from 0 files.now path.now) }
{
    let found = find(alloc, files, path)?;
    Ok(Decision {
        indent_width: indentation(&found.applied),
        line_width: width(&found.applied),
        problems: found.problems,
    })
}

// What files say about a path.
#[derive(Drop)]
struct Found {
    // The lines that apply, the strongest first.
    applied: Vec<Applied>,
    problems: Vec<Problem>,
}

// What these files, up to the first root, say about a path.
fn find(alloc: Global, files: &[ConfigFile], path: &str) -> Result<Found, AllocError>
    ensures applied { IfOk result (λ found. found.applied.items ≡ applying files.now path.now) }
    ensures problems { IfOk result (λ found. found.problems.items ≡ problems_from 0 files.now path.now) }
{
    let mut found = Found {
        applied: Vec::new(alloc),
        problems: Vec::new(alloc),
    };
    for (n, file) in files.iter().enumerate() {
        found.add(alloc, n, file, path)?;
        if file.is_root {
            return Ok(found);
        }
    }
    Ok(found)
}

impl Found {
    // Adds what the file with this number says about a path.
    fn add(
        &mut self,
        alloc: Global,
        number: usize,
        file: &ConfigFile,
        path: &str,
    ) -> Result<(), AllocError>
        ensures applied { OnOk result (self.new.applied.items ≡ self.old.applied.items ++ applied_in number file.now path.now) }
        ensures problems { OnOk result (self.new.problems.items ≡ self.old.problems.items ++ problems_in number file.now path.now) }
    {
        let mut entries = entries_for(alloc, file, path)?;
        add_faults(&mut self.problems, number, &file.faults)?;
        add_wrong(&mut self.problems, number, &entries)?;
        entries.reverse();
        add_applied(&mut self.applied, number, &entries)
    }
}

// The lines of a file that apply to a path, in order.
fn entries_for(alloc: Global, file: &ConfigFile, path: &str) -> Result<Vec<Entry>, AllocError>
    ensures { IfOk result (λ entries. entries.items ≡ entries_of file.now path.now) }
{
    let mut entries = Vec::new(alloc);
    let Some(below) = path.strip_prefix(file.folder.as_str()) else {
        return Ok(entries);
    };
    add_matching(alloc, &mut entries, &file.sections, below)?;
    Ok(entries)
}

// Adds the lines of the sections that match a path below their folder.
fn add_matching(
    alloc: Global,
    entries: &mut Vec<Entry>,
    sections: &[Section],
    below: &str,
) -> Result<(), AllocError>
    ensures { OnOk result (entries.new.items ≡ entries.old.items ++ entries_below sections.now below.now) }
{
    for section in sections {
        section.add_matching(alloc, entries, below)?;
    }
    Ok(())
}

impl Section {
    // Adds its lines, if it matches a path below its folder.
    fn add_matching(
        &self,
        alloc: Global,
        entries: &mut Vec<Entry>,
        below: &str,
    ) -> Result<(), AllocError>
        ensures { OnOk result (entries.new.items ≡ entries.old.items ++ entries_in below.now self.now) }
    {
        if self.glob.matches(alloc, below)? {
            entries.extend_from_slice(&self.entries)?;
        }
        Ok(())
    }
}

// Adds lines of a file.
fn add_applied(applied: &mut Vec<Applied>, file: usize, entries: &[Entry]) -> Result<(), AllocError>
    ensures { OnOk result (applied.new.items ≡ applied.old.items ++ map (applied_at file) entries.now) }
{
    for entry in entries {
        applied.push(Applied {
            file,
            entry: *entry,
        })?;
    }
    Ok(())
}

// Adds the faults of a file.
fn add_faults(
    problems: &mut Vec<Problem>,
    file: usize,
    faults: &[(usize, Fault)],
) -> Result<(), AllocError>
    ensures { OnOk result (problems.new.items ≡ problems.old.items ++ map (fault_at file) faults.now) }
{
    for fault in faults {
        problems.push(Problem {
            file,
            line: fault.0,
            fault: fault.1,
        })?;
    }
    Ok(())
}

// Adds the lines of a file whose value can't be used.
fn add_wrong(problems: &mut Vec<Problem>, file: usize, entries: &[Entry]) -> Result<(), AllocError>
    ensures { OnOk result (problems.new.items ≡ problems.old.items ++ filter_map (wrong_at file) entries.now) }
{
    for entry in entries {
        add_if_wrong(problems, file, entry)?;
    }
    Ok(())
}

// Adds a line, if its value can't be used.
fn add_if_wrong(problems: &mut Vec<Problem>, file: usize, entry: &Entry) -> Result<(), AllocError>
    ensures { OnOk result (problems.new.items ≡ problems.old.items ++ cons_option (wrong_at file entry.now) []) }
{
    if let Value::Wrong(fault) = entry.value {
        problems.push(Problem {
            file,
            line: entry.line,
            fault,
        })?;
    }
    Ok(())
}

// The line that decides about a setting: the first one with a value that can be used.
fn deciding_for(applied: &[Applied], key: Key) -> Option<Applied>
    ensures { result ≡ deciding key applied.now }
{
    applied
        .iter()
        .copied()
        .find(|it| it.entry.key == key && it.entry.value.is_usable())
}

// The indentation of a level.
fn indentation(applied: &[Applied]) -> Option<Setting>
    ensures { result ≡ indent_setting applied.now }
{
    let decided = deciding_for(applied, Key::IndentSize)?;
    let columns = match decided.entry.value {
        Value::Columns(columns) => columns,
        Value::Tab => tab(applied),
        Value::Off | Value::Unset | Value::Wrong(_) => return None,
    };
    Some(Setting {
        columns,
        file: decided.file,
        line: decided.entry.line,
    })
}

// The columns of a tab.
fn tab(applied: &[Applied]) -> u16
    ensures { result ≡ tab_columns (deciding Key.TabWidth applied.now) }
{
    match deciding_for(applied, Key::TabWidth) {
        Some(decided) => match decided.entry.value {
            Value::Columns(columns) => columns,
            _ => TAB_COLUMNS,
        },
        None => TAB_COLUMNS,
    }
}

// The width of a line.
fn width(applied: &[Applied]) -> Option<Setting>
    ensures { result ≡ width_setting applied.now }
{
    let decided = deciding_for(applied, Key::MaxLineLength)?;
    let columns = match decided.entry.value {
        Value::Columns(columns) => columns,
        Value::Off => MOST_COLUMNS,
        Value::Tab | Value::Unset | Value::Wrong(_) => return None,
    };
    Some(Setting {
        columns,
        file: decided.file,
        line: decided.entry.line,
    })
}

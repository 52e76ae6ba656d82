//! The settings of a project on the disk.
//!
//! No contract can say what a disk holds: what a file's settings are by what was read is the contract of `decide`.
use crate::decisions::{Decision, Setting, decide};
use crate::files::ConfigFile;
use std::alloc::{AllocError, Global};
use std::io::ErrorKind;
use std::rt::Files;
use std::{fs, io, mem};

const NAME: &str = ".editorconfig";

/// A setting of a layout, in columns, and where it was taken from.
#[derive(Drop)]
pub struct ProjectSetting {
    pub columns: u16,
    /// The absolute path of the file.
    pub path: String,
    /// The number of the line, from 1.
    pub line: usize,
}

/// A line that is ignored.
#[derive(Drop)]
pub struct ProjectProblem {
    /// The absolute path of the file.
    pub path: String,
    /// The number of the line, from 1, or 0 for the file.
    pub line: usize,
    /// What is wrong.
    pub message: String,
}

/// How a project wants a file to be laid out.
#[derive(Drop)]
pub struct ProjectSettings {
    /// The indentation of a level. `None` if nothing is set.
    pub indent_width: Option<ProjectSetting>,
    /// The width of a line. `None` if nothing is set.
    pub line_width: Option<ProjectSetting>,
    /// The lines that are ignored, from the nearest file upward, and in each file by line.
    pub problems: Vec<ProjectProblem>,
}

/// The settings of the file with this absolute path, which need not exist. It has no `.` and `..`.
///
/// The files `.editorconfig` of its folder and of each folder above are read, up to one that says `root = true`. One that is
/// missing or can't be read is as none. The only error is out of memory.
pub fn project_settings<R: Files + AllocGlobal>(rt: &R, path: &str) -> io::Result<ProjectSettings> {
    Project::new(rt.alloc()).settings_of(rt, path)
}

/// The files `.editorconfig` that were read last, so that files of one folder read them once.
#[derive(Drop)]
pub struct Project {
    // From the nearest folder upward.
    files: Vec<ConfigFile>,
}

impl Project {
    /// A project of which nothing was read.
    pub fn new(alloc: Global) -> Project {
        Project {
            files: Vec::new(alloc),
        }
    }

    /// The settings of a file, as `project_settings` gives them. What was read for the file before is not read again.
    pub fn settings_of<R: Files + AllocGlobal>(
        &mut self,
        rt: &R,
        path: &str,
    ) -> io::Result<ProjectSettings> {
        let folder = match path.rsplit_once('/') {
            Some((folder, _)) => folder,
            None => "",
        };
        self.enter(rt, folder)?;
        let alloc = rt.alloc();
        let decision = decide(alloc, &self.files, path)?;
        Ok(ProjectSettings {
            indent_width: self.setting(alloc, decision.indent_width)?,
            line_width: self.setting(alloc, decision.line_width)?,
            problems: self.problems(alloc, &decision)?,
        })
    }

    // Reads the files of a folder and those above it that weren't read.
    fn enter<R: Files + AllocGlobal>(&mut self, rt: &R, folder: &str) -> io::Result<()> {
        let alloc = rt.alloc();
        let mut kept = mem::replace(&mut self.files, Vec::new(alloc));
        kept.retain(|file| is_in(folder, file.folder.as_str()));
        let mut read = Vec::new(alloc);
        let mut at = folder;
        for _ in 0..=folder.len() {
            if kept.first().is_some_and(|file| file.folder.as_str() == at) {
                break;
            }
            let file = read_file(rt, at)?;
            let is_root = file.is_root;
            read.push(file)?;
            if is_root {
                kept.clear();
                break;
            }
            match at.rsplit_once('/') {
                Some((above, _)) => at = above,
                None => break,
            }
        }
        read.append(&mut kept)?;
        self.files = read;
        Ok(())
    }

    // The path of a file.
    fn path_of(&self, alloc: Global, number: usize) -> Result<String, AllocError> {
        match self.files.get(number) {
            Some(file) => {
                let folder = file.folder.as_str();
                format!(in alloc; "{folder}/{NAME}")
            }
            None => String::from_str(alloc, NAME),
        }
    }

    // A setting with the path of its file.
    fn setting(
        &self,
        alloc: Global,
        setting: Option<Setting>,
    ) -> Result<Option<ProjectSetting>, AllocError> {
        let Some(setting) = setting else {
            return Ok(None);
        };
        Ok(Some(ProjectSetting {
            columns: setting.columns,
            path: self.path_of(alloc, setting.file)?,
            line: setting.line,
        }))
    }

    // The problems in words, in order.
    fn problems(
        &self,
        alloc: Global,
        decision: &Decision,
    ) -> Result<Vec<ProjectProblem>, AllocError> {
        let mut places = Vec::new(alloc);
        for problem in &decision.problems {
            places.push(*problem)?;
        }
        places.sort_by_key(|problem| (problem.file, problem.line))?;
        let mut problems = Vec::new(alloc);
        for problem in &places {
            if let Some(file) = self.files.get(problem.file) {
                problems.push(ProjectProblem {
                    path: self.path_of(alloc, problem.file)?,
                    line: problem.line,
                    message: file.explain(alloc, problem.line, problem.fault)?,
                })?;
            }
        }
        Ok(problems)
    }
}

// Whether a folder is another one, or below it. Neither has a slash at the end.
fn is_in(folder: &str, other: &str) -> bool {
    match folder.strip_prefix(other) {
        Some(rest) => rest.is_empty() || rest.starts_with('/'),
        None => false,
    }
}

// Reads the file of a folder, which is given without a slash at the end.
fn read_file<R: Files + AllocGlobal>(rt: &R, folder: &str) -> io::Result<ConfigFile> {
    let alloc = rt.alloc();
    let path = format!(in alloc; "{folder}/{NAME}")?;
    let is_file = match fs::metadata(rt, path.as_str()) {
        Ok(metadata) => metadata.is_file(),
        Err(_) => false,
    };
    if !is_file {
        return Ok(ConfigFile::missing(alloc, folder)?);
    }
    match fs::read(rt, path.as_str()) {
        Ok(bytes) => match str::from_utf8(&bytes) {
            Ok(text) => Ok(ConfigFile::new(alloc, folder, text)?),
            Err(_) => Ok(ConfigFile::not_utf8(alloc, folder)?),
        },
        Err(error) if error.kind() == ErrorKind::OutOfMemory => Err(error),
        Err(_) => Ok(ConfigFile::missing(alloc, folder)?),
    }
}

//! How each file is laid out.
use crate::names::Shown;
use crate::options::Options;
use crate::paths::resolved;
use cedar_policy_formatter::Config;
use cedar_settings::{Project, ProjectProblem, ProjectSetting, ProjectSettings};
use std::alloc::AllocError;
use std::collections::BTreeSet;
use std::io;
use std::io::Write;

/// The layouts of files: what the options ask for, or else the project of a file, or else the default.
#[derive(Drop)]
pub struct Layouts<'a> {
    rt: &'a HostRuntime,
    options: &'a Options<'a>,
    // The working folder, without a slash at the end.
    folder: &'a str,
    project: Project,
    // What was reported about files `.editorconfig`.
    told: BTreeSet<String>,
}

// A setting in columns, and where it was taken from.
#[derive(Drop)]
struct Choice {
    columns: u16,
    source: String,
}

impl<'a> Layouts<'a> {
    /// The layouts of a run with these options, in the working folder with this absolute path. What is wrong in files
    /// `.editorconfig` is reported on standard error, and so is each layout if the options ask for that.
    pub fn new(rt: &'a HostRuntime, options: &'a Options<'a>, folder: &'a str) -> Layouts<'a> {
        let alloc = rt.alloc();
        Layouts {
            rt,
            options,
            folder,
            project: Project::new(alloc),
            told: BTreeSet::new(alloc),
        }
    }

    /// The layout of the file with this name, which need not exist.
    pub fn layout_of(&mut self, name: &str) -> io::Result<Config> {
        let alloc = self.rt.alloc();
        if !self.options.reads_config {
            return self.choose(name, None, None);
        }
        let path = resolved(alloc, self.folder, name)?;
        let settings = self.project.settings_of(self.rt, path.as_str())?;
        let ProjectSettings {
            indent_width,
            line_width,
            problems,
        } = settings;
        self.tell_problems(&problems)?;
        self.choose(name, indent_width, line_width)
    }

    /// The layout of a text that has no name of a file, only one for reports.
    pub fn layout_of_text(&self, name: &str) -> io::Result<Config> {
        self.choose(name, None, None)
    }

    // The layout of a file that has these settings.
    fn choose(
        &self,
        name: &str,
        indent_width: Option<ProjectSetting>,
        line_width: Option<ProjectSetting>,
    ) -> io::Result<Config> {
        let default = Config::default();
        let indent = self.choice("-i", self.options.indent_width, indent_width)?;
        let width = self.choice("-l", self.options.line_width, line_width)?;
        let config = Config {
            indent_width: match &indent {
                Some(choice) => choice.columns as isize,
                None => default.indent_width,
            },
            line_width: match &width {
                Some(choice) => choice.columns as usize,
                None => default.line_width,
            },
        };
        if self.options.tells_layouts {
            write!(
                self.rt.stderr(),
                "{}: indentation {} ({}), width {} ({})\n",
                Shown(name),
                config.indent_width,
                source_of(&indent),
                config.line_width,
                source_of(&width)
            )?;
        }
        Ok(config)
    }

    // A setting: by an option, or else by a project.
    fn choice(
        &self,
        option: &str,
        given: Option<u16>,
        setting: Option<ProjectSetting>,
    ) -> Result<Option<Choice>, AllocError> {
        let alloc = self.rt.alloc();
        if let Some(columns) = given {
            return Ok(Some(Choice {
                columns,
                source: String::from_str(alloc, option)?,
            }));
        }
        let Some(setting) = setting else {
            return Ok(None);
        };
        let path = Shown(self.shown(setting.path.as_str()));
        let line = setting.line;
        Ok(Some(Choice {
            columns: setting.columns,
            source: format!(in alloc; "{path}:{line}")?,
        }))
    }

    // Tells what is wrong in files `.editorconfig`, each line once.
    fn tell_problems(&mut self, problems: &[ProjectProblem]) -> io::Result<()> {
        let alloc = self.rt.alloc();
        for problem in problems {
            let path = Shown(self.shown(problem.path.as_str()));
            let ProjectProblem { line, message, .. } = problem;
            // (it may have a value of the file)
            let message = Shown(message.as_str());
            let text = match line {
                0 => format!(in alloc; "{path}: {message}")?,
                _ => format!(in alloc; "{path}:{line}: {message}")?,
            };
            if self.told.insert(text.clone()?)? {
                write!(self.rt.stderr(), "{text}\n")?;
            }
        }
        Ok(())
    }

    // An absolute path as it is shown: from the working folder on, if it is below that.
    fn shown<'p>(&self, path: &'p str) -> &'p str {
        match path.strip_prefix(self.folder) {
            Some(rest) => rest.strip_prefix('/').unwrap_or(path),
            None => path,
        }
    }
}

// Where a setting was taken from.
fn source_of(choice: &Option<Choice>) -> &str {
    match choice {
        Some(choice) => choice.source.as_str(),
        None => "default",
    }
}

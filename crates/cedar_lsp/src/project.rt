//! The layout that the project of a document asks for.
use cedar_server::{ClientMessage, Request, Wishes};
use cedar_settings::{ProjectSettings, project_settings};
use percent_encoding::percent_decode;
use std::alloc::{AllocError, Global};
use std::io;
use std::io::Write;

/// What files `.editorconfig` say about the documents of a session.
#[derive(Drop)]
pub struct Projects<'a> {
    rt: &'a HostRuntime,
    // What was reported of their lines so far.
    told: Vec<String>,
}

impl<'a> Projects<'a> {
    /// The projects of the disk.
    pub fn new(rt: &'a HostRuntime) -> Projects<'a> {
        Projects {
            rt,
            told: Vec::new(rt.alloc()),
        }
    }

    /// The layout that the project of the message's document asks for. A document that is no file has no project. A line that
    /// can't be read is reported once, on standard error.
    pub fn wishes_for(&mut self, message: &ClientMessage) -> io::Result<Wishes> {
        let path = match message {
            ClientMessage::Request {
                request: Request::Formatting { uri } | Request::RangeFormatting { uri, .. },
                ..
            } => path_of(self.rt.alloc(), uri.as_str())?,
            _ => None,
        };
        let Some(path) = path else {
            return Ok(Wishes {
                line_width: None,
                indent_width: None,
            });
        };
        let settings = project_settings(self.rt, path.as_str())?;
        let wishes = Wishes {
            line_width: settings.line_width.as_ref().map(|it| it.columns as usize),
            indent_width: settings.indent_width.as_ref().map(|it| it.columns),
        };
        self.tell_problems(settings)?;
        Ok(wishes)
    }

    // Tells which lines are ignored, and why.
    fn tell_problems(&mut self, settings: ProjectSettings) -> io::Result<()> {
        for problem in &settings.problems {
            let line = problem.line;
            let text = format!(in self.rt.alloc(); "{}:{line}: {}", problem.path, problem.message)?;
            if !self.told.contains(&text) {
                // (an editor may read no standard error)
                let _ = write!(self.rt.stderr(), "cedar-lsp: {text}\n");
                self.told.push(text)?;
            }
        }
        Ok(())
    }
}

// The path of a document that is a file of this machine.
fn path_of(alloc: Global, uri: &str) -> Result<Option<String>, AllocError> {
    let Some(rest) = uri.strip_prefix("file://") else {
        return Ok(None);
    };
    let path = rest.strip_prefix("localhost").unwrap_or(rest);
    let mut bytes = Vec::new(alloc);
    percent_decode(path.as_bytes()).append_to(&mut bytes)?;
    let Ok(path) = String::from_utf8(bytes) else {
        return Ok(None);
    };
    let is_plain = path.as_str().starts_with('/')
        && !path
            .as_str()
            .split('/')
            .any(|name| name == "." || name == "..");
    Ok(is_plain.then_some(path))
}

//! Paths as texts.
ghost use Rattle.std.specs.Prelude.{◌≡◌, ◌↔◌, IfOk, IsTrue, [], map, string_bytes};
ghost use Rattle.cedar_files.specs.Paths.{IsBelow, LeadsOut, absolute, led, next, path_of};

use std::alloc::{AllocError, Global};
use std::env;

/// The absolute path of the working folder, without a slash at the end; empty if there is none.
pub fn working_folder(rt: &HostRuntime) -> Result<String, AllocError> {
    let alloc = rt.alloc();
    match env::current_dir(rt) {
        Ok(folder) => resolved(alloc, "", folder.as_path().as_str()),
        Err(_) => Ok(String::new(alloc)),
    }
}

/// The absolute path of a file, without `.` and `..`, from a folder that is given by its absolute path.
pub fn resolved(alloc: Global, folder: &str, name: &str) -> Result<String, AllocError>
    ensures { IfOk result (λ path. string_bytes path ≡ path_of folder.now name.now) }
{
    let mut parts = Vec::new(alloc);
    if !name.starts_with('/') {
        follow(alloc, &mut parts, folder)?;
    }
    follow(alloc, &mut parts, name)?;
    joined(alloc, &parts)
}

// Follows a path from a folder that is given by its parts.
fn follow<'a>(alloc: Global, parts: &mut Vec<&'a str>, path: &'a str) -> Result<(), AllocError>
    ensures { IfOk result (λ _. map (λ x. x.now) parts.new.items ≡ led (map (λ x. x.now) parts.old.items) path.now) }
{
    let names: Vec<&'a str> = path.split('/').collect(alloc)?;
    for name in &names {
        go_on(parts, name)?;
    }
    Ok(())
}

// Goes on from a folder to what is named there.
fn go_on<'a>(parts: &mut Vec<&'a str>, name: &'a str) -> Result<(), AllocError>
    ensures { IfOk result (λ _. map (λ x. x.now) parts.new.items ≡ next (map (λ x. x.now) parts.old.items) name.now) }
{
    match name {
        "" | "." => {}
        ".." => {
            let _ = parts.pop();
        }
        _ => parts.push(name)?,
    }
    Ok(())
}

// The path from the root of these parts.
fn joined(alloc: Global, parts: &[&str]) -> Result<String, AllocError>
    ensures { IfOk result (λ path. string_bytes path ≡ absolute (map (λ x. x.now) parts.now)) }
{
    let mut path = String::new(alloc);
    for part in parts {
        path.push('/')?;
        path.push_str(part)?;
    }
    Ok(path)
}

/// Whether an absolute path leads to nothing in a folder, nor in one below it. The folder's path may end in slashes.
pub fn leads_out(path: &str, folder: &str) -> bool
    ensures { IsTrue result ↔ LeadsOut path.now folder.now }
{
    !is_below(path, folder.trim_end_matches('/'))
}

// Whether an absolute path leads to something in a folder, or in one below it. The folder's path has no slash at the end.
fn is_below(path: &str, folder: &str) -> bool
    ensures { IsTrue result ↔ IsBelow path.now folder.now }
{
    match path.strip_prefix(folder) {
        Some(rest) => rest.starts_with('/'),
        None => false,
    }
}

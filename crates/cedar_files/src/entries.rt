//! What becomes of what a folder holds.
ghost use Rattle.std.specs.Prelude.{◌↔◌, IsTrue};
ghost use Rattle.cedar_files.specs.Entries.{IsHidden, IsTaken};

/// Whether a name is hidden.
pub fn is_hidden(name: &[u8]) -> bool
    ensures { IsTrue result ↔ IsHidden name.now }
{
    name.first() == Some(&b'.')
}

/// Whether something with this name is formatted, if it is a file or a link, and no folder.
pub fn is_taken(name: &str, is_file: bool, is_link: bool) -> bool
    ensures { IsTrue result ↔ IsTaken name.now is_file is_link }
{
    name.ends_with(".cedar") && (is_file || is_link)
}

//! The open documents, and how they are lost.
ghost use Rattle.std.specs.Prelude.{◌≡◌, ◌∷◌, [], ◌↔◌, All, IfOk, IsTrue, MatchOption, OnErr, OnOk, string_bytes};
ghost use Rattle.cedar_server.specs.Sessions.{AreAllLost, AreCleared, AreSame, Clears, Diagnoses, Give, IsPart, Puts, names_of_texts};

use crate::diagnoses::Diagnosis;
use crate::messages::ServerMessage;
use cedar_edits::{Change, Encoding, changed_text};
use std::alloc::{AllocError, Global};
use std::collections::BTreeMap;

/// An open document.
#[derive(Drop)]
pub enum Document {
    /// Its text, with the number that the client gave it.
    Text { version: Option<i64>, text: String },
    /// Its text is lost, since a message about it couldn't be read.
    Lost,
}

/// The open documents, by their URIs.
pub type Documents = BTreeMap<String, Document>;

/// Puts a document among these. The only error is out of memory, and then every document is as before.
pub(crate) fn put(
    documents: &mut Documents,
    uri: String,
    document: Document,
) -> Result<(), AllocError>
    ensures ok { OnOk result (Puts (string_bytes uri) document documents.old documents.new) }
    ensures err { OnErr result (AreSame documents.old documents.new) }
{
    documents.insert(uri, document)?;
    Ok(())
}

/// The same documents, all lost.
pub(crate) fn all_lost(alloc: Global, documents: &Documents) -> Result<Documents, AllocError>
    ensures { IfOk result (λ lost. AreAllLost documents.now lost) }
{
    let mut lost = BTreeMap::new(alloc);
    for (uri, _) in documents {
        let name = String::from_str(alloc, uri.as_str())?;
        put(&mut lost, name, Document::Lost)?;
    }
    Ok(lost)
}

/// What clears the faults that were reported about the documents with a text.
pub(crate) fn clear_texts(
    alloc: Global,
    documents: &Documents,
) -> Result<Vec<ServerMessage>, AllocError>
    ensures { IfOk result (λ told. AreCleared (names_of_texts documents.now.entries) told.items) }
{
    let mut told = Vec::new(alloc);
    for (uri, document) in documents {
        match document {
            Document::Text { .. } => told.push(cleared(alloc, uri.as_str())?)?,
            Document::Lost => {}
        }
    }
    Ok(told)
}

/// What clears the faults that were reported about a document.
pub(crate) fn cleared(alloc: Global, uri: &str) -> Result<ServerMessage, AllocError>
    ensures { IfOk result (λ message. Clears uri.now (message ∷ [])) }
{
    diagnosed(alloc, uri, None, Vec::new(alloc))
}

/// The message about what is wrong with a document.
pub(crate) fn diagnosed(
    alloc: Global,
    uri: &str,
    version: Option<i64>,
    diagnoses: Vec<Diagnosis>,
) -> Result<ServerMessage, AllocError>
    ensures { IfOk result (λ message. Diagnoses (λ ds. ds ≡ diagnoses.items) version uri.now (message ∷ [])) }
{
    Ok(ServerMessage::Diagnostics {
        uri: String::from_str(alloc, uri)?,
        version,
        diagnoses,
    })
}

/// The text that changes give to a document whose text is lost, if one of them is of the whole text.
pub(crate) fn given_text(
    alloc: Global,
    changes: Vec<Change>,
    encoding: Encoding,
) -> Result<Option<String>, AllocError>
    ensures { IfOk result (λ text. MatchOption text (All IsPart changes.items) (λ new. Give encoding changes.items (string_bytes new))) }
{
    if are_parts(&changes) {
        return Ok(None);
    }
    // (what comes before the whole text changes nothing in the end)
    let text = changed_text(alloc, "", changes, encoding)?;
    Ok(Some(text))
}

// Whether each change is of a part of a text.
fn are_parts(changes: &[Change]) -> bool
    ensures { IsTrue result ↔ All IsPart changes.now }
{
    changes.iter().all(is_part)
}

// Whether a change is of a part of a text.
fn is_part(change: &Change) -> bool
    ensures { IsTrue result ↔ IsPart change.now }
{
    matches!(change, Change::Part { .. })
}

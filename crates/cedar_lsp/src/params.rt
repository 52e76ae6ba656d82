//! The members that the parameters of each message need, as the protocol names them. Other members are ignored.
use serde::Deserialize;
use serde_json::Value;

/// The parameters of a message.
#[derive(Drop, Deserialize)]
pub struct Message<P> {
    pub params: P,
}

/// Of `didClose`, `formatting`, `willSaveWaitUntil` and other requests about a whole document, and what tells the document of any other.
#[derive(Drop, Deserialize)]
#[serde(rename_all = "camelCase")]
pub struct OfDocument {
    pub text_document: Named,
}

#[derive(Drop, Deserialize)]
pub struct Named {
    pub uri: String,
}

/// Of `didOpen`.
#[derive(Drop, Deserialize)]
#[serde(rename_all = "camelCase")]
pub struct Opening {
    pub text_document: Opened,
}

#[derive(Drop, Deserialize)]
pub struct Opened {
    pub uri: String,
    pub version: Option<Value>,
    pub text: String,
}

/// Of `didChange`.
#[derive(Drop, Deserialize)]
#[serde(rename_all = "camelCase")]
pub struct Changing {
    pub text_document: Changed,
    pub content_changes: Vec<ContentChange>,
}

#[derive(Drop, Deserialize)]
pub struct Changed {
    pub uri: String,
    pub version: Option<Value>,
}

#[derive(Drop, Deserialize)]
pub struct ContentChange {
    pub range: Option<Span>,
    pub text: String,
}

/// Of `rangeFormatting` and `codeAction`.
#[derive(Drop, Deserialize)]
#[serde(rename_all = "camelCase")]
pub struct Selecting {
    pub text_document: Named,
    pub range: Span,
}

/// Of `onTypeFormatting` and `completion`.
#[derive(Drop, Deserialize)]
#[serde(rename_all = "camelCase")]
pub struct Typing {
    pub text_document: Named,
    pub position: Place,
}

/// Of `selectionRange`.
#[derive(Drop, Deserialize)]
#[serde(rename_all = "camelCase")]
pub struct Surrounding {
    pub text_document: Named,
    pub positions: Vec<Place>,
}

#[derive(Drop, Deserialize)]
pub struct Span {
    pub start: Place,
    pub end: Place,
}

#[derive(Drop, Deserialize)]
pub struct Place {
    pub line: Whole,
    pub character: Whole,
}

/// A whole number that isn't negative. Some clients write it as a float.
#[derive(Clone, Copy, Drop, Deserialize)]
#[serde(untagged)]
pub enum Whole {
    Integer(u64),
    Float(f64),
}

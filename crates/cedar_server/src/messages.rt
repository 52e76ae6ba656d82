//! What a client and the server say.
use crate::completions::Completions;
use crate::diagnoses::Diagnosis;
use crate::fixes::Fix;
use crate::placed::{PlacedFold, PlacedSelection, PlacedSymbol, PlacedToken};
use cedar_edits::{Change, Encoding, PlacedEdit, Position, Range};

/// The id of a request, as its client chose it.
#[derive(Drop)]
pub enum Id {
    Number(i64),
    Text(String),
}

/// The layout that somebody asks for. What it leaves open is for others to say.
#[derive(Clone, Copy)]
pub struct Wishes {
    /// The width of a line, in columns.
    pub line_width: Option<usize>,
    /// The indentation of a level, in columns.
    pub indent_width: Option<u16>,
}

/// What a client says about itself.
#[derive(Drop)]
pub struct ClientOptions {
    /// The units that it can count characters in, the one it prefers first. None means UTF-16.
    pub encodings: Vec<Encoding>,
    /// Whether it is to ask for the layout of a document before it saves it.
    pub formats_on_save: bool,
    /// The layout that its user asks for. It goes before that of a project.
    pub wishes: Wishes,
}

/// A request, which wants an answer.
#[derive(Drop)]
pub enum Request {
    Initialize(ClientOptions),
    Shutdown,
    /// The layout of a whole document.
    Formatting {
        uri: String,
    },
    /// The layout of the policies touched by a range.
    RangeFormatting {
        uri: String,
        range: Range,
    },
    /// The fixes of the faults that a range touches.
    Fixes {
        uri: String,
        range: Range,
    },
    /// What could come at a position.
    Completion {
        uri: String,
        position: Position,
    },
    /// The classes of the tokens and comments of a document.
    Tokens {
        uri: String,
    },
    /// The policies of a document by name.
    Symbols {
        uri: String,
    },
    /// What can be folded in a document.
    Folds {
        uri: String,
    },
    /// The parts of a document around each of some positions.
    Selections {
        uri: String,
        positions: Vec<Position>,
    },
    /// One of these, with parameters that can't be read.
    Malformed,
    /// Any other request.
    Other,
}

/// A notification, which wants no answer.
#[derive(Drop)]
pub enum Notification {
    Exit,
    /// The document has this text. `version` counts its texts, if the client counts them.
    DidOpen {
        uri: String,
        version: Option<i64>,
        text: String,
    },
    /// The changes are applied one after the other.
    DidChange {
        uri: String,
        version: Option<i64>,
        changes: Vec<Change>,
    },
    DidClose {
        uri: String,
    },
    /// Any other notification.
    Other,
}

/// Why a message is rejected.
#[derive(Clone, Copy)]
pub enum Fault {
    /// It isn't JSON, or is too long to be read.
    Parse,
    /// It is JSON, but no request, no notification and no response.
    NoMessage,
}

/// A message that can't be read, and what it may be about.
#[derive(Drop)]
pub enum Unread {
    /// No text of a document: it is a request, with this id if that can be read, or another notification.
    NoText { id: Option<Id> },
    /// The text of this document.
    TextOf { uri: String },
    /// The text of any document. With a fault it is rejected; a notification isn't answered.
    AnyText { fault: Option<Fault> },
}

/// A message to the server.
#[derive(Drop)]
pub enum ClientMessage {
    Request { id: Id, request: Request },
    Notification(Notification),
    /// A response to the server, which asks nothing.
    Response,
    Unread(Unread),
}

/// Why a request fails.
#[derive(Clone, Copy)]
pub enum Failure {
    /// It came before `initialize`.
    NotInitialized,
    /// It came after `shutdown`, or is a second `initialize`.
    InvalidRequest,
    /// The server has no such method.
    MethodNotFound,
    /// Its parameters can't be read.
    InvalidParams,
    /// It names a document that isn't open.
    NotOpen,
    /// It names a document whose text is lost, since a message about it couldn't be read.
    Lost,
    /// There wasn't enough memory for the answer.
    OutOfMemory,
}

/// The answer to a request.
#[derive(Drop)]
pub enum Answer {
    /// The server is ready, and counts characters in this unit. `formats_on_save` is what the client said.
    Ready {
        encoding: Encoding,
        formats_on_save: bool,
    },
    /// There is nothing to say: after `shutdown`, and if what is to be formatted is refused.
    Nothing,
    /// These edits format the document, or a part of it; there are none if it is formatted.
    Edits(Vec<PlacedEdit>),
    /// Each of these mends a fault of the document with this URI.
    Fixes {
        uri: String,
        fixes: Vec<Fix>,
    },
    /// These tokens could come.
    Completions(Completions),
    /// The tokens and comments of the document, in order, with their classes.
    Tokens(Vec<PlacedToken>),
    /// The policies of the document that are accepted, in order, by name.
    Symbols(Vec<PlacedSymbol>),
    /// What can be folded in the document.
    Folds(Vec<PlacedFold>),
    /// The parts of the document around each of the positions, in order.
    Selections(Vec<PlacedSelection>),
    Failure(Failure),
}

/// A message to the client.
#[derive(Drop)]
pub enum ServerMessage {
    Response {
        id: Id,
        answer: Answer,
    },
    /// A message was rejected, with its id if that is known.
    Rejection {
        id: Option<Id>,
        fault: Fault,
    },
    /// All that is wrong with a document: nothing if it is accepted, lost, or no longer open. `version` is that of its text.
    Diagnostics {
        uri: String,
        version: Option<i64>,
        diagnoses: Vec<Diagnosis>,
    },
    /// A notice for the user, since a message couldn't be read: the text of this document is lost, or those of all that were
    /// open.
    Notice {
        uri: Option<String>,
    },
}

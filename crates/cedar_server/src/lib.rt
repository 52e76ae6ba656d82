//! A language server for policies, without input and output: what it answers to each message.
#![tactic(auto)]

mod advice;
pub mod classes;
mod completions;
mod diagnoses;
mod documents;
mod fixes;
pub mod folds;
mod formatting;
mod last_text;
pub mod laws;
mod messages;
mod outline;
pub mod parts;
pub mod placed;
mod ranges;
pub mod sections;
pub mod selections;
pub mod semantic;
mod server;
mod session;
pub mod symbols;

pub use cedar_edits::{Change, Encoding, PlacedEdit, Position, Range, offset_at, position_at};
pub use cedar_faults::samples::sample;
pub use cedar_tokens::kind::Kind;
pub use classes::Class;
pub use completions::Completions;
pub use diagnoses::{Code, Diagnosis, Related};
pub use documents::{Document, Documents};
pub use fixes::Fix;
pub use folds::FoldKind;
pub use messages::{
    Answer, ClientMessage, ClientOptions, Failure, Fault, Id, Notification, Request, ServerMessage,
    Unread, Wishes,
};
pub use placed::{PlacedFold, PlacedSelection, PlacedSymbol, PlacedToken};
pub use server::{Phase, Server};
pub use session::{Client, Received, serve};

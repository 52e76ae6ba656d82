//! Messages of the client, from JSON. Every body is a message of the server: one that can't be read is `Unread`.
use crate::params::{
    Changing, ContentChange, Message, OfDocument, Opening, Place, Selecting, Span, Surrounding,
    Typing, Whole,
};
use cedar_server::{
    Change, ClientMessage, ClientOptions, Encoding, Fault, Id, Notification, Position, Range,
    Request, Unread, Wishes,
};
use serde::{Deserialize, Deserializer, Format};
use serde_json::Value;
use std::alloc::{AllocError, Global};
use std::num::saturating_f64_to_i64;

// What tells the kind of a message.
#[derive(Drop, Deserialize)]
struct Head {
    jsonrpc: Option<Value>,
    #[serde(default)]
    id: Name,
    method: Option<Value>,
    #[serde(default)]
    result: Member,
    #[serde(default)]
    error: Member,
}

// The id of a message.
#[derive(Drop)]
enum Name {
    // A notification has none.
    Absent,
    Null,
    Id(Id),
    // It is no whole number and no text.
    Other,
}

impl Default for Name {
    fn default() -> Name {
        Name::Absent
    }
}

impl<'de> Deserialize<'de> for Name {
    fn deserialize<F: Format>(
        alloc: Global,
        from: &mut Deserializer<'de, '_, F>,
    ) -> Result<Name, F::Error> {
        let value = Value::deserialize(alloc, from)?;
        Ok(match value {
            Value::Null => Name::Null,
            Value::String(text) => Name::Id(Id::Text(text)),
            value => match integer(&value) {
                Some(number) => Name::Id(Id::Number(number)),
                None => Name::Other,
            },
        })
    }
}

// A member whose value isn't needed.
#[derive(Clone, Copy)]
enum Member {
    Absent,
    Present,
}

impl Default for Member {
    fn default() -> Member {
        Member::Absent
    }
}

impl<'de> Deserialize<'de> for Member {
    fn deserialize<F: Format>(
        _alloc: Global,
        from: &mut Deserializer<'de, '_, F>,
    ) -> Result<Member, F::Error> {
        from.skip()?;
        Ok(Member::Present)
    }
}

/// The message in a body.
pub fn decode(alloc: Global, body: &[u8]) -> Result<ClientMessage, AllocError> {
    if let Ok(text) = str::from_utf8(body) {
        if let Some(head) = read::<Head>(alloc, text)? {
            return message_of(alloc, head, text);
        }
    }
    // (a text like it says which document the message is about)
    let lossy = String::from_utf8_lossy(alloc, body)?;
    let text = without_surrogates(alloc, lossy.as_str())?;
    match read::<Head>(alloc, text.as_str())? {
        Some(head) => unread_of(alloc, head, text.as_str()),
        None => {
            let fault = Some(fault_of(alloc, text.as_str())?);
            Ok(ClientMessage::Unread(Unread::AnyText { fault }))
        }
    }
}

// A value, if the text is one of its type.
fn read<'de, T: Deserialize<'de>>(alloc: Global, text: &'de str) -> Result<Option<T>, AllocError> {
    match serde_json::from_str::<T>(alloc, text) {
        Ok(value) => Ok(Some(value)),
        Err(error) if error.is_memory() => Err(AllocError),
        Err(_) => Ok(None),
    }
}

// Why a text is no message.
fn fault_of(alloc: Global, text: &str) -> Result<Fault, AllocError> {
    match Value::from_str(alloc, text) {
        Ok(_) => Ok(Fault::NoMessage),
        Err(error) if error.is_memory() => Err(AllocError),
        Err(_) => Ok(Fault::Parse),
    }
}

// The message with this head.
fn message_of(alloc: Global, head: Head, text: &str) -> Result<ClientMessage, AllocError> {
    let is_plain = head.jsonrpc.as_ref().and_then(Value::as_str) == Some("2.0");
    if !is_plain || head.method.as_ref().and_then(Value::as_str).is_none() {
        return unread_of(alloc, head, text);
    }
    let Head { id, method, .. } = head;
    let method = method.as_ref().and_then(Value::as_str).unwrap_or("");
    match id {
        Name::Id(id) if !is_about_text(method) => Ok(ClientMessage::Request {
            id,
            request: request_of(alloc, method, text)?,
        }),
        Name::Null | Name::Other if !is_about_text(method) => {
            Ok(ClientMessage::Unread(Unread::NoText { id: None }))
        }
        Name::Absent | Name::Null => match notification_of(alloc, method, text)? {
            Some(notification) => Ok(ClientMessage::Notification(notification)),
            None => about(alloc, text),
        },
        Name::Id(_) | Name::Other => about(alloc, text),
    }
}

// What a message with this head is that can't be read.
fn unread_of(alloc: Global, head: Head, text: &str) -> Result<ClientMessage, AllocError> {
    let is_response = head.result == Member::Present || head.error == Member::Present;
    let Head { id, method, .. } = head;
    let method = method.as_ref().and_then(Value::as_str);
    if method.is_some_and(is_about_text) {
        return about(alloc, text);
    }
    Ok(match id {
        Name::Id(_) | Name::Null if is_response => ClientMessage::Response,
        Name::Id(id) => ClientMessage::Unread(Unread::NoText { id: Some(id) }),
        _ if method.is_some() => ClientMessage::Unread(Unread::NoText { id: None }),
        _ => ClientMessage::Unread(Unread::AnyText {
            fault: Some(Fault::NoMessage),
        }),
    })
}

// A notification that can't be read, about the document that it names. A name with a replaced character may be another's.
fn about(alloc: Global, text: &str) -> Result<ClientMessage, AllocError> {
    let unread = match read::<Message<OfDocument>>(alloc, text)? {
        Some(Message { params }) if !params.text_document.uri.contains('\u{fffd}') => {
            Unread::TextOf {
                uri: params.text_document.uri,
            }
        }
        _ => Unread::AnyText { fault: None },
    };
    Ok(ClientMessage::Unread(unread))
}

// Whether a notification with this method says what the text of a document is.
fn is_about_text(method: &str) -> bool {
    matches!(
        method,
        "textDocument/didOpen" | "textDocument/didChange" | "textDocument/didClose"
    )
}

// A whole number. Some clients write it as a float.
fn integer(value: &Value) -> Option<i64> {
    if let Some(number) = value.as_i64() {
        return Some(number);
    }
    whole_of(value.as_f64()?)
}

// The largest number below which a float has every whole number.
const EXACT: f64 = 9007199254740992.0;

// The whole number that a float is.
fn whole_of(float: f64) -> Option<i64> {
    let is_whole = float.trunc() == float && float.abs() <= EXACT;
    is_whole.then_some(saturating_f64_to_i64(float))
}

// The request with this method.
fn request_of(alloc: Global, method: &str, text: &str) -> Result<Request, AllocError> {
    match method {
        "initialize" => initialize(alloc, text),
        "shutdown" => Ok(Request::Shutdown),
        "textDocument/formatting" | "textDocument/willSaveWaitUntil" => formatting(alloc, text),
        "textDocument/rangeFormatting" => range_formatting(alloc, text),
        "textDocument/onTypeFormatting" => on_type_formatting(alloc, text),
        "textDocument/codeAction" => code_action(alloc, text),
        "textDocument/completion" => completion(alloc, text),
        "textDocument/semanticTokens/full" => tokens(alloc, text),
        "textDocument/documentSymbol" => symbols(alloc, text),
        "textDocument/foldingRange" => folds(alloc, text),
        "textDocument/selectionRange" => selections(alloc, text),
        _ => Ok(Request::Other),
    }
}

// What the client says about itself. Other options are ignored.
fn initialize(alloc: Global, text: &str) -> Result<Request, AllocError> {
    let params = match read::<Message<Value>>(alloc, text)? {
        Some(message) => message.params,
        None => Value::Null,
    };
    let mut encodings = Vec::new(alloc);
    if let Some(names) = params
        .pointer("/capabilities/general/positionEncodings")
        .and_then(Value::as_array)
    {
        for name in names {
            if let Some(encoding) = encoding_of(name) {
                encodings.push(encoding)?;
            }
        }
    }
    Ok(Request::Initialize(ClientOptions {
        encodings,
        formats_on_save: params
            .pointer("/initializationOptions/formatOnSave")
            .and_then(Value::as_bool)
            == Some(true),
        wishes: Wishes {
            line_width: count_at(&params, "/initializationOptions/lineWidth"),
            indent_width: count_at(&params, "/initializationOptions/indentWidth").and_then(
                |columns| u16::try_from(columns).ok(),
            ),
        },
    }))
}

// The unit with this name, if the server knows it.
fn encoding_of(name: &Value) -> Option<Encoding> {
    match name.as_str()? {
        "utf-8" => Some(Encoding::Utf8),
        "utf-16" => Some(Encoding::Utf16),
        "utf-32" => Some(Encoding::Utf32),
        _ => None,
    }
}

// A whole number that isn't negative.
fn count_at(value: &Value, path: &str) -> Option<usize> {
    let number = integer(value.pointer(path)?)?;
    usize::try_from(number).ok()
}

fn formatting(alloc: Global, text: &str) -> Result<Request, AllocError> {
    Ok(match read::<Message<OfDocument>>(alloc, text)? {
        Some(Message { params }) => Request::Formatting {
            uri: params.text_document.uri,
        },
        None => Request::Malformed,
    })
}

fn range_formatting(alloc: Global, text: &str) -> Result<Request, AllocError> {
    let Some(Message { params }) = read::<Message<Selecting>>(alloc, text)? else {
        return Ok(Request::Malformed);
    };
    Ok(match range_of(&params.range) {
        Some(range) => Request::RangeFormatting {
            uri: params.text_document.uri,
            range,
        },
        None => Request::Malformed,
    })
}

// The layout of the policy that a `;` just ended: of the range of that character.
fn on_type_formatting(alloc: Global, text: &str) -> Result<Request, AllocError> {
    let Some(Message { params }) = read::<Message<Typing>>(alloc, text)? else {
        return Ok(Request::Malformed);
    };
    Ok(match position_of(&params.position) {
        Some(end) => Request::RangeFormatting {
            uri: params.text_document.uri,
            range: Range {
                start: Position {
                    line: end.line,
                    character: end.character.saturating_sub(1),
                },
                end,
            },
        },
        None => Request::Malformed,
    })
}

fn code_action(alloc: Global, text: &str) -> Result<Request, AllocError> {
    let Some(Message { params }) = read::<Message<Selecting>>(alloc, text)? else {
        return Ok(Request::Malformed);
    };
    Ok(match range_of(&params.range) {
        Some(range) => Request::Fixes {
            uri: params.text_document.uri,
            range,
        },
        None => Request::Malformed,
    })
}

fn completion(alloc: Global, text: &str) -> Result<Request, AllocError> {
    let Some(Message { params }) = read::<Message<Typing>>(alloc, text)? else {
        return Ok(Request::Malformed);
    };
    Ok(match position_of(&params.position) {
        Some(position) => Request::Completion {
            uri: params.text_document.uri,
            position,
        },
        None => Request::Malformed,
    })
}

fn tokens(alloc: Global, text: &str) -> Result<Request, AllocError> {
    Ok(match named(alloc, text)? {
        Some(uri) => Request::Tokens { uri },
        None => Request::Malformed,
    })
}

fn symbols(alloc: Global, text: &str) -> Result<Request, AllocError> {
    Ok(match named(alloc, text)? {
        Some(uri) => Request::Symbols { uri },
        None => Request::Malformed,
    })
}

fn folds(alloc: Global, text: &str) -> Result<Request, AllocError> {
    Ok(match named(alloc, text)? {
        Some(uri) => Request::Folds { uri },
        None => Request::Malformed,
    })
}

fn selections(alloc: Global, text: &str) -> Result<Request, AllocError> {
    let Some(Message { params }) = read::<Message<Surrounding>>(alloc, text)? else {
        return Ok(Request::Malformed);
    };
    let mut positions = Vec::new(alloc);
    for place in &params.positions {
        let Some(position) = position_of(place) else {
            return Ok(Request::Malformed);
        };
        positions.push(position)?;
    }
    Ok(Request::Selections {
        uri: params.text_document.uri,
        positions,
    })
}

// The URI of the document that a request is about.
fn named(alloc: Global, text: &str) -> Result<Option<String>, AllocError> {
    Ok(match read::<Message<OfDocument>>(alloc, text)? {
        Some(Message { params }) => Some(params.text_document.uri),
        None => None,
    })
}

fn range_of(span: &Span) -> Option<Range> {
    Some(Range {
        start: position_of(&span.start)?,
        end: position_of(&span.end)?,
    })
}

fn position_of(place: &Place) -> Option<Position> {
    Some(Position {
        line: count_of(place.line)?,
        character: count_of(place.character)?,
    })
}

fn count_of(whole: Whole) -> Option<usize> {
    match whole {
        Whole::Integer(number) => usize::try_from(number).ok(),
        Whole::Float(float) => usize::try_from(whole_of(float)?).ok(),
    }
}

// The notification with this method, if it can be read.
fn notification_of(
    alloc: Global,
    method: &str,
    text: &str,
) -> Result<Option<Notification>, AllocError> {
    match method {
        "exit" => Ok(Some(Notification::Exit)),
        "textDocument/didOpen" => did_open(alloc, text),
        "textDocument/didChange" => did_change(alloc, text),
        "textDocument/didClose" => did_close(alloc, text),
        _ => Ok(Some(Notification::Other)),
    }
}

fn did_open(alloc: Global, text: &str) -> Result<Option<Notification>, AllocError> {
    let Some(Message { params }) = read::<Message<Opening>>(alloc, text)? else {
        return Ok(None);
    };
    let document = params.text_document;
    Ok(Some(Notification::DidOpen {
        uri: document.uri,
        version: document.version.as_ref().and_then(integer),
        text: document.text,
    }))
}

fn did_change(alloc: Global, text: &str) -> Result<Option<Notification>, AllocError> {
    let Some(Message { params }) = read::<Message<Changing>>(alloc, text)? else {
        return Ok(None);
    };
    let mut changes = Vec::new(alloc);
    for content in params.content_changes {
        let Some(change) = change_of(content) else {
            return Ok(None);
        };
        changes.push(change)?;
    }
    let document = params.text_document;
    Ok(Some(Notification::DidChange {
        uri: document.uri,
        version: document.version.as_ref().and_then(integer),
        changes,
    }))
}

fn change_of(content: ContentChange) -> Option<Change> {
    let text = content.text;
    match content.range {
        None => Some(Change::Whole(text)),
        Some(span) => range_of(&span).map(|range| Change::Part { range, text }),
    }
}

fn did_close(alloc: Global, text: &str) -> Result<Option<Notification>, AllocError> {
    let message = read::<Message<OfDocument>>(alloc, text)?;
    Ok(message.map(|it| Notification::DidClose {
        uri: it.params.text_document.uri,
    }))
}

// The same text, with the character U+FFFD in place of each escape of a surrogate. JSON has no character for one alone.
fn without_surrogates(alloc: Global, text: &str) -> Result<String, AllocError> {
    let mut result = String::new(alloc);
    // (a backslash comes before each part but the first, and is itself escaped if the part before it is empty)
    let mut is_escape = false;
    for (index, part) in text.split('\\').enumerate() {
        if index > 0 {
            result.push('\\')?;
        }
        match part.get(SURROGATE..) {
            Some(rest) if is_escape && begins_surrogate(part.as_bytes()) => {
                result.push_str("ufffd")?;
                result.push_str(rest)?;
            }
            _ => result.push_str(part)?,
        }
        is_escape = !(is_escape && part.is_empty());
    }
    Ok(result)
}

// The bytes of an escaped unit after its backslash: `u` and four digits.
const SURROGATE: usize = 5;

// Whether what follows a backslash is the escape of a surrogate: `u`, and a number from D800 to DFFF.
fn begins_surrogate(bytes: &[u8]) -> bool {
    matches!(
        bytes,
        [b'u', b'd' | b'D', b'8'..=b'9' | b'a'..=b'f' | b'A'..=b'F', _, _, ..]
    )
}

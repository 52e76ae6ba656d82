//! Messages to the client, as JSON with their heads.
use crate::outline::{
    folds_value, range_value, selections_value, symbols_value, token_types, tokens_value,
};
use cedar_server::{
    Answer, Code, Completions, Diagnosis, Encoding, Failure, Fault, Fix, Id, Kind, PlacedEdit,
    Range, Related, ServerMessage, sample,
};
use serde_json::{Value, json};
use std::alloc::{AllocError, Global};

/// A message of the server.
pub fn encode(alloc: Global, message: ServerMessage) -> Result<String, AllocError> {
    match message {
        ServerMessage::Response { id, answer } => response(alloc, id, answer),
        ServerMessage::Rejection { id, fault } => rejection(alloc, id, fault),
        ServerMessage::Diagnostics {
            uri,
            version,
            diagnoses,
        } => diagnostics(alloc, uri, version, diagnoses),
        ServerMessage::Notice { uri } => notice(alloc, uri),
    }
}

// The answer to a message that is rejected.
fn rejection(alloc: Global, id: Option<Id>, fault: Fault) -> Result<String, AllocError> {
    let (code, message) = match fault {
        Fault::Parse => (
            -32700,
            "the message is no JSON, or its length can't be read",
        ),
        Fault::NoMessage => (
            -32600,
            "the message is no request, no notification and no response",
        ),
    };
    let id = match id {
        Some(id) => id_value(id),
        None => Value::Null,
    };
    error(alloc, id, code, message)
}

// A message with its head.
fn framed(alloc: Global, value: &Value) -> Result<String, AllocError> {
    let body = value.to_string(alloc)?;
    format!(in alloc; "Content-Length: {}\r\n\r\n{body}", body.len())
}

fn id_value(id: Id) -> Value {
    match id {
        Id::Number(number) => Value::from(number),
        Id::Text(text) => Value::String(text),
    }
}

fn error(alloc: Global, id: Value, code: i64, message: &str) -> Result<String, AllocError> {
    let value = json!(in alloc; {
        "jsonrpc": "2.0",
        "id": id,
        "error": {"code": code, "message": message},
    })?;
    framed(alloc, &value)
}

fn response(alloc: Global, id: Id, answer: Answer) -> Result<String, AllocError> {
    let result = match answer {
        Answer::Ready {
            encoding,
            formats_on_save,
        } => capabilities(alloc, encoding, formats_on_save)?,
        Answer::Nothing => Value::Null,
        Answer::Edits(edits) => edits_value(alloc, edits)?,
        Answer::Fixes { uri, fixes } => fixes_value(alloc, uri, fixes)?,
        Answer::Completions(completions) => completions_value(alloc, completions)?,
        Answer::Tokens(tokens) => tokens_value(alloc, tokens)?,
        Answer::Symbols(symbols) => symbols_value(alloc, symbols)?,
        Answer::Folds(folds) => folds_value(alloc, folds)?,
        Answer::Selections(selections) => selections_value(alloc, selections)?,
        Answer::Failure(failure) => {
            let (code, message) = words_of(failure);
            return error(alloc, id_value(id), code, message);
        }
    };
    let value = json!(in alloc; {"jsonrpc": "2.0", "id": id_value(id), "result": result})?;
    framed(alloc, &value)
}

// The code and the text of a failure.
fn words_of(failure: Failure) -> (i64, &'static str) {
    match failure {
        Failure::NotInitialized => (-32002, "the server waits for initialize"),
        Failure::InvalidRequest => (-32600, "the request isn't taken any more"),
        Failure::MethodNotFound => (-32601, "the server has no such method"),
        Failure::InvalidParams => (-32602, "the parameters can't be read"),
        Failure::NotOpen => (-32602, "the document isn't open"),
        Failure::Lost => (
            -32803,
            "the document's text is lost, since a message about it couldn't be read; open it again",
        ),
        Failure::OutOfMemory => (-32603, "out of memory"),
    }
}

fn capabilities(
    alloc: Global,
    encoding: Encoding,
    formats_on_save: bool,
) -> Result<Value, AllocError> {
    let encoding = match encoding {
        Encoding::Utf16 => "utf-16",
        Encoding::Utf8 => "utf-8",
        Encoding::Utf32 => "utf-32",
    };
    let types = token_types(alloc)?;
    json!(in alloc; {
        "capabilities": {
            "positionEncoding": encoding,
            "textDocumentSync": {"openClose": true, "change": 2, "willSaveWaitUntil": formats_on_save},
            "documentFormattingProvider": true,
            "documentRangeFormattingProvider": true,
            "documentOnTypeFormattingProvider": {"firstTriggerCharacter": ";"},
            "codeActionProvider": {"codeActionKinds": ["quickfix"]},
            "completionProvider": {},
            "documentSymbolProvider": true,
            "foldingRangeProvider": true,
            "selectionRangeProvider": true,
            "semanticTokensProvider": {"legend": {"tokenTypes": types, "tokenModifiers": []}, "full": true},
        },
        "serverInfo": {"name": "cedar-lsp"},
    })
}

fn edits_value(alloc: Global, edits: Vec<PlacedEdit>) -> Result<Value, AllocError> {
    let mut values = Vec::new(alloc);
    for edit in edits {
        values.push(edit_value(alloc, edit)?)?;
    }
    Ok(Value::Array(values))
}

fn edit_value(alloc: Global, edit: PlacedEdit) -> Result<Value, AllocError> {
    let range = range_value(alloc, edit.range)?;
    json!(in alloc; {"range": range, "newText": edit.text})
}

fn diagnostics(
    alloc: Global,
    uri: String,
    version: Option<i64>,
    diagnoses: Vec<Diagnosis>,
) -> Result<String, AllocError> {
    let mut list = Vec::new(alloc);
    for diagnosis in diagnoses {
        list.push(diagnosis_value(alloc, uri.as_str(), diagnosis)?)?;
    }
    let list = Value::Array(list);
    let params = match version {
        Some(version) => { json!(in alloc; {"uri": uri, "version": version, "diagnostics": list})? }
        None => json!(in alloc; {"uri": uri, "diagnostics": list})?,
    };
    notification(alloc, "textDocument/publishDiagnostics", params)
}

fn notification(alloc: Global, method: &str, params: Value) -> Result<String, AllocError> {
    let value = json!(in alloc; {"jsonrpc": "2.0", "method": method, "params": params})?;
    framed(alloc, &value)
}

// A warning that is shown to the user.
fn notice(alloc: Global, uri: Option<String>) -> Result<String, AllocError> {
    let message = match uri {
        Some(uri) => format!(in alloc;
            "Cedar: a message about {uri} can't be read, so its text is unknown. It is neither checked nor formatted until it is opened again."
        )?,
        None => String::from_str(
            alloc,
            "Cedar: a message can't be read, so the texts of the open documents are unknown. They are neither checked nor formatted until they are opened again.",
        )?,
    };
    let params = json!(in alloc; {"type": 2, "message": message})?;
    notification(alloc, "window/showMessage", params)
}

// A diagnosis of the document with this URI.
fn diagnosis_value(alloc: Global, uri: &str, diagnosis: Diagnosis) -> Result<Value, AllocError> {
    let Diagnosis {
        range,
        code,
        message,
        related,
    } = diagnosis;
    let range = range_value(alloc, range)?;
    let (code, severity) = (name_of(code), severity_of(code));
    match related {
        Some(related) => {
            let related = related_value(alloc, uri, related)?;
            json!(in alloc; {
                "range": range,
                "severity": severity,
                "code": code,
                "source": "cedar",
                "message": message,
                "relatedInformation": [related],
            })
        }
        None => json!(in alloc; {
            "range": range,
            "severity": severity,
            "code": code,
            "source": "cedar",
            "message": message,
        }),
    }
}

// Another part of the document that a diagnosis refers to.
fn related_value(alloc: Global, uri: &str, related: Related) -> Result<Value, AllocError> {
    let range = range_value(alloc, related.range)?;
    json!(in alloc; {"location": {"uri": uri, "range": range}, "message": related.message})
}

// The name of a code.
fn name_of(code: Code) -> &'static str {
    match code {
        Code::UnknownCharacter => "unknown-character",
        Code::UnfinishedString => "unfinished-string",
        Code::NumberTooLarge => "number-too-large",
        Code::Grammar => "grammar",
        Code::TooDeep => "too-deep",
        Code::More => "more",
    }
}

// The protocol's severities of errors and of information.
const ERROR: u8 = 1;

const INFORMATION: u8 = 3;

// The severity of a code.
fn severity_of(code: Code) -> u8 {
    match code {
        Code::More => INFORMATION,
        _ => ERROR,
    }
}

fn fixes_value(alloc: Global, uri: String, fixes: Vec<Fix>) -> Result<Value, AllocError> {
    let mut values = Vec::new(alloc);
    for fix in fixes {
        values.push(fix_value(alloc, uri.as_str(), fix)?)?;
    }
    Ok(Value::Array(values))
}

// An action that replaces the part that a fault is about.
fn fix_value(alloc: Global, uri: &str, fix: Fix) -> Result<Value, AllocError> {
    let token = sample(fix.kind);
    let title = format!(in alloc; "Replace with '{token}'")?;
    let range = range_value(alloc, fix.diagnosis.range)?;
    let edits = json!(in alloc; [{"range": range, "newText": token}])?;
    let changes = json!(in alloc; {uri: edits})?;
    let diagnosis = diagnosis_value(alloc, uri, fix.diagnosis)?;
    json!(in alloc; {
        "title": title,
        "kind": "quickfix",
        "diagnostics": [diagnosis],
        "isPreferred": true,
        "edit": {"changes": changes},
    })
}

fn completions_value(alloc: Global, completions: Completions) -> Result<Value, AllocError> {
    let mut items = Vec::new(alloc);
    for kind in completions.kinds {
        items.push(item_value(alloc, kind, completions.range)?)?;
    }
    Ok(Value::Array(items))
}

// The protocol's kinds of a keyword and of an operator.
const KEYWORD: u8 = 14;

const OPERATOR: u8 = 24;

// A token that could come in place of a range.
fn item_value(alloc: Global, kind: Kind, range: Range) -> Result<Value, AllocError> {
    let token = sample(kind);
    let is_word = token.ends_with(|character: char| character.is_ascii_lowercase());
    let item = if is_word { KEYWORD } else { OPERATOR };
    let range = range_value(alloc, range)?;
    json!(in alloc; {
        "label": token,
        "kind": item,
        "textEdit": {"range": range, "newText": token},
    })
}

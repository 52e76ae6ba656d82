//! What an editor shows of a document, as JSON.
use cedar_server::{
    Class, FoldKind, PlacedFold, PlacedSelection, PlacedSymbol, PlacedToken, Position, Range,
};
use serde_json::{Value, json};
use std::alloc::{AllocError, Global};

/// The protocol's names of classes, which `type_of` counts from 0.
pub fn token_types(alloc: Global) -> Result<Value, AllocError> {
    json!(in alloc; [
        "comment", "decorator", "keyword", "variable", "parameter", "type", "namespace", "function", "method", "property",
        "string", "number", "operator",
    ])
}

// The number of a class; `None` for one that the protocol has no name for.
fn type_of(class: Class) -> Option<u8> {
    match class {
        Class::Comment => Some(0),
        Class::Annotation => Some(1),
        Class::Keyword => Some(2),
        Class::Variable => Some(3),
        Class::Slot => Some(4),
        Class::EntityType => Some(5),
        Class::Namespace => Some(6),
        Class::Function => Some(7),
        Class::Method => Some(8),
        Class::Attribute => Some(9),
        Class::String => Some(10),
        Class::Number => Some(11),
        Class::Operator => Some(12),
        Class::Name | Class::Punctuation => None,
    }
}

/// Tokens with their classes: of each the lines and the characters from the one before, its length, its class and no modifiers.
/// Tokens that extend over lines are left out, which clients need not know.
pub fn tokens_value(alloc: Global, tokens: Vec<PlacedToken>) -> Result<Value, AllocError> {
    let mut data = Vec::new(alloc);
    let mut last = Position {
        line: 0,
        character: 0,
    };
    for token in tokens {
        let Range { start, end } = token.range;
        if start.line != end.line {
            continue;
        }
        let Some(class) = type_of(token.class) else {
            continue;
        };
        let lines = start.line.saturating_sub(last.line);
        let before = if lines == 0 { last.character } else { 0 };
        data.push(Value::from(lines))?;
        data.push(Value::from(start.character.saturating_sub(before)))?;
        data.push(Value::from(end.character.saturating_sub(start.character)))?;
        data.push(Value::from(class))?;
        data.push(Value::from(0u8))?;
        last = start;
    }
    json!(in alloc; {"data": Value::Array(data)})
}

// The protocol's kind of a function.
const FUNCTION: u8 = 12;

/// Policies by name.
pub fn symbols_value(alloc: Global, symbols: Vec<PlacedSymbol>) -> Result<Value, AllocError> {
    let mut values = Vec::new(alloc);
    for symbol in symbols {
        let range = range_value(alloc, symbol.range)?;
        let place = range_value(alloc, symbol.place)?;
        values.push(json!(in alloc; {
            "name": symbol.name,
            "kind": FUNCTION,
            "range": range,
            "selectionRange": place,
        })?)?;
    }
    Ok(Value::Array(values))
}

/// Lines that can be folded.
pub fn folds_value(alloc: Global, folds: Vec<PlacedFold>) -> Result<Value, AllocError> {
    let mut values = Vec::new(alloc);
    for fold in folds {
        let (first, last) = (fold.range.start.line, fold.range.end.line);
        let value = match fold.kind {
            FoldKind::Comments => {
                json!(in alloc; {"startLine": first, "endLine": last, "kind": "comment"})?
            }
            FoldKind::Policy | FoldKind::Condition => {
                json!(in alloc; {"startLine": first, "endLine": last})?
            }
        };
        values.push(value)?;
    }
    Ok(Value::Array(values))
}

/// Parts around positions: for each position the innermost, in which the next one is nested as its parent.
pub fn selections_value(
    alloc: Global,
    selections: Vec<PlacedSelection>,
) -> Result<Value, AllocError> {
    let mut values = Vec::new(alloc);
    for selection in selections {
        let mut value = Value::Null;
        for range in selection.ranges.iter().rev() {
            value = selection_value(alloc, *range, value)?;
        }
        values.push(value)?;
    }
    Ok(Value::Array(values))
}

// A part with the one around it, which is null for the outermost.
fn selection_value(alloc: Global, range: Range, parent: Value) -> Result<Value, AllocError> {
    let range = range_value(alloc, range)?;
    if parent.is_null() {
        return json!(in alloc; {"range": range});
    }
    json!(in alloc; {"range": range, "parent": parent})
}

/// A range.
pub fn range_value(alloc: Global, range: Range) -> Result<Value, AllocError> {
    json!(in alloc; {
        "start": {"line": range.start.line, "character": range.start.character},
        "end": {"line": range.end.line, "character": range.end.character},
    })
}

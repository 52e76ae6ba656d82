//! The policies of a text by their names.
ghost use Rattle.std.specs.Prelude.{◌≡◌, ◌<◌, ◌+◌, ◌^◌, ℕ, List, length, All, IfOk, OnOk, MatchOption, string_bytes};
ghost use Rattle.cedar_server.specs.Symbols.{AreSymbols, IsNameOf, IsSymbolOf, IsNoId, IsId, IsQuoted, is_tight_before, is_tight_after, moved};
ghost use Rattle.cedar_server.specs.Inside.Heads.{AddsSymbols, IsFirstId, IsHead, needs_space, with_token};
ghost use Rattle.cedar_server.specs.Inside.StandingParts.{Stands, PolicyStands};

use crate::parts::{PartKind, Parts};
use crate::sections::{section_len, section_policies};
use cedar_grammar::tree::{Annotation, Node, Policy};
use cedar_tokens::kind::{Kind, kind_of};
use cedar_tokens::token::Span;
use std::alloc::{AllocError, Global};

/// A policy as an outline shows it.
#[derive(Drop)]
pub struct Symbol {
    /// The text of its first `@id` that isn't blank, or else its effect and scope on one line.
    pub name: String,
    /// From its first annotation through its `;`.
    pub span: Span,
    /// The string of that `@id`, or else the effect.
    pub place: Span,
}

/// The policies of a text, in order. Those between two `;` that aren't accepted are passed over.
pub fn symbols(alloc: Global, text: &str) -> Result<Vec<Symbol>, AllocError>
    ensures { IfOk result (λ symbols. AreSymbols text.now symbols.items) }
{
    let mut symbols = Vec::new(alloc);
    let mut from = 0;
    let mut rest = text;
    'sections: while let Some(len) = section_len(rest) {
        let (section, after) = rest.split_at(len);
        push_symbols(alloc, section, from, &mut symbols)?;
        from += len;
        rest = after;
    }
    Ok(symbols)
}

// Appends the symbols of a section that begins at the byte `from`.
fn push_symbols(
    alloc: Global,
    section: &str,
    from: usize,
    symbols: &mut Vec<Symbol>,
) -> Result<(), AllocError>
    requires { from + length section.now < 2 ^ 64 }
    ensures { OnOk result (AddsSymbols section.now from symbols.old.items symbols.new.items) }
{
    let Some(policies) = section_policies(alloc, section)? else {
        return Ok(());
    };
    for policy in &policies.policies {
        symbols.push(symbol_of(alloc, section, from, policy)?)?;
    }
    Ok(())
}

// The symbol of a policy of this section.
fn symbol_of(
    alloc: Global,
    section: &str,
    from: usize,
    policy: &Node<Policy>,
) -> Result<Symbol, AllocError>
    requires room { from + length section.now < 2 ^ 64 }
    requires stands { PolicyStands section.now policy.now }
    ensures { IfOk result (IsSymbolOf section.now from policy.now) }
{
    let (name, place) = name_of(alloc, section, policy)?;
    Ok(Symbol {
        name,
        span: moved(from, policy.span),
        place: moved(from, place),
    })
}

// The name of a policy and its place.
fn name_of(
    alloc: Global,
    section: &str,
    policy: &Node<Policy>,
) -> Result<(String, Span), AllocError>
    requires { PolicyStands section.now policy.now }
    ensures name { IfOk result (λ n. IsNameOf section.now policy.now.inner (string_bytes n.0) n.1) }
    ensures stands { IfOk result (λ n. Stands section.now n.1) }
{
    let effect = policy.inner.effect.span;
    match id_of(&policy.inner.annotations) {
        Some((id, place)) => Ok((String::from_str(alloc, id)?, place)),
        None => Ok((head(alloc, section, effect.start)?, effect)),
    }
}

/// The place so many bytes later.
pub(crate) fn moved(by: usize, span: Span) -> Span
    requires start { by + span.start < 2 ^ 64 }
    requires end { by + span.end < 2 ^ 64 }
    ensures { result ≡ moved by span }
{
    Span {
        start: by + span.start,
        end: by + span.end,
    }
}

// The text of the first `@id` that isn't blank, and the place of its string.
fn id_of<'src>(annotations: &[Node<Annotation<'src>>]) -> Option<(&'src str, Span)>
    ensures { MatchOption result (All IsNoId annotations.now) (λ id. IsFirstId annotations.now id.0.now id.1) }
{
    for annotation in annotations {
        if let Some(id) = id_in(&annotation.inner) {
            return Some(id);
        }
    }
    None
}

// The same of an annotation.
fn id_in<'src>(annotation: &Annotation<'src>) -> Option<(&'src str, Span)>
    ensures { MatchOption result ((text : List ℕ) (place : _) → ¬ (IsId annotation.now text place)) (λ id. IsId annotation.now id.0.now id.1) }
{
    let Some(value) = &annotation.value else {
        return None;
    };
    let id = between_quotes(value.inner.0)?;
    if annotation.key.inner.0 == "id" && !id.trim().is_empty() {
        Some((id, value.span))
    } else {
        None
    }
}

// What is between the quotes of a string.
fn between_quotes(string: &str) -> Option<&str>
    ensures { MatchOption result ((text : List ℕ) → ¬ (IsQuoted text string.now)) (λ text. IsQuoted text.now string.now) }
{
    let bytes = string.as_bytes();
    let len = bytes.len();
    if len < 2 || bytes[0] != b'"' || bytes[len - 1] != b'"' {
        return None;
    }
    Some(&string[1..len - 1])
}

// The tokens of a section from the byte `start` through the first `)`, on one line.
fn head(alloc: Global, section: &str, start: usize) -> Result<String, AllocError>
    ensures { IfOk result (λ name. IsHead section.now start (string_bytes name)) }
{
    let mut name = String::new(alloc);
    let mut at = 0;
    let mut before = None;
    for part in Parts::new(section) {
        let begin = at;
        at += part.text.len();
        let PartKind::Token = part.kind else {
            continue;
        };
        if begin < start {
            continue;
        }
        let kind = kind_of(part.text);
        push_token(&mut name, before, part.text)?;
        if Kind::RParen == kind {
            return Ok(name);
        }
        before = Some(kind);
    }
    Ok(name)
}

// Appends a token to a line, after a space if one is between it and the token before.
fn push_token(line: &mut String, before: Option<Kind>, text: &str) -> Result<(), AllocError>
    ensures { OnOk result (string_bytes line.new ≡ with_token (string_bytes line.old) before text.now) }
{
    if needs_space(before, kind_of(text)) {
        line.push(' ')?;
    }
    line.push_str(text)?;
    Ok(())
}

// Whether a space is between two tokens on one line.
fn needs_space(before: Option<Kind>, kind: Kind) -> bool
    ensures { result ≡ needs_space before kind }
{
    match before {
        Some(before) => !(is_tight_after(before) || is_tight_before(kind)),
        None => false,
    }
}

fn is_tight_before(kind: Kind) -> bool
    ensures { result ≡ is_tight_before kind }
{
    matches!(
        kind,
        Kind::Comma | Kind::RParen | Kind::RBracket | Kind::DoubleColon
    )
}

fn is_tight_after(kind: Kind) -> bool
    ensures { result ≡ is_tight_after kind }
{
    matches!(kind, Kind::LParen | Kind::LBracket | Kind::DoubleColon)
}

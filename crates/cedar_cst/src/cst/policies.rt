//! Policies: annotations, the scope and conditions.
ghost use Rattle.std.specs.Prelude.{◌≡◌, ◌<◌, ◌≤◌, ◌||◌, suc, length, IfOk};
ghost use Rattle.cedar_grammar.specs.Trees.{Label};
ghost use Rattle.cedar_tokens.specs.Kinds.{is, begins, is_effect, is_cond_word};
ghost use Rattle.cedar_grammar.specs.Texts.{greatest_depth};
ghost use Rattle.cedar_tokens.specs.declared.kind.Kind.TheVariants as K;
ghost use Rattle.cedar_grammar.specs.Reader.Rules.{star};
ghost use Rattle.cedar_grammar.specs.Reader.Lines.{annotation_rule, cond_rule, policy_rule, set_to};
ghost use Rattle.cedar_grammar.specs.Erased.{policy_parts, annotation_parts, cond_parts};
ghost use Rattle.cedar_cst.specs.ReadingExprs.{at_depth};
ghost use Rattle.cedar_cst.specs.Inside.ReadingSet.{GivesSet};
ghost use Rattle.cedar_reading.specs.Reading.{kind, flat, GivesNode, GivesMany};

use crate::cst::scopes::parse_scope;
use crate::expressions::parse_expr;
use cedar_grammar::MAX_NESTING;
use cedar_grammar::tree::{Annotation, Cond, Node, Policies, Policy};
use cedar_reading::lexeme::Lexeme;
use cedar_reading::literals::parse_str;
use cedar_reading::names::parse_word;
use cedar_reading::reading::{
    Parsed, Refusal, begins, expect, followed_by, keep, past, refuse, start_of,
};
use cedar_tokens::kind::{Kind, Words};
use cedar_tokens::token::Span;
use std::alloc::Global;

/// The policies that the tokens are.
pub fn parse_set<'src>(alloc: Global, tokens: &[Lexeme<'src>]) -> Result<Policies<'src>, Refusal>
    ensures { GivesSet result (set_to kind greatest_depth tokens.now) }
{
    let mut policies = Vec::new(alloc);
    let mut rest = tokens;
    'policies: while begins_policy(rest) {
        keep(parse_policy(alloc, rest), &mut policies, &mut rest)?;
    }
    if rest.is_empty() {
        Ok(Policies { policies })
    } else {
        Err(refuse(rest))
    }
}

// Whether a policy begins with the first token.
fn begins_policy(tokens: &[Lexeme]) -> bool
    ensures { result ≡ begins kind (λ x. is K.At x || is_effect x) tokens.now }
{
    begins(tokens, Kind::At) || begins(tokens, Kind::Permit) || begins(tokens, Kind::Forbid)
}

// A policy, from its annotations to its `;`.
fn parse_policy<'t, 'src>(
    alloc: Global,
    tokens: &'t [Lexeme<'src>],
) -> Parsed<'t, 'src, Node<Policy<'src>>>
    ensures shorter { IfOk result (λ x. length x.1.now < length tokens.now) }
    ensures reads { GivesNode Label.policy policy_parts result (at_depth (suc greatest_depth) policy_rule tokens.now) }
{
    let (annotations, rest) = parse_annotations(alloc, tokens)?;
    let (effect, rest) = parse_word(rest, Words::Effect)?;
    let (variables, rest) = parse_scope(alloc, rest)?;
    let ((conds, end), rest) = followed_by(parse_conds(alloc, rest), Kind::SemiColon)?;
    let start = start_of(tokens);
    let span = Span { start, end };
    let inner = Policy {
        annotations,
        effect,
        variables,
        conds,
    };
    Ok((Node { inner, span }, rest))
}

// Annotations, or none.
fn parse_annotations<'t, 'src>(
    alloc: Global,
    tokens: &'t [Lexeme<'src>],
) -> Parsed<'t, 'src, Vec<Node<Annotation<'src>>>>
    ensures shorter { IfOk result (λ x. length x.1.now ≤ length tokens.now) }
    ensures reads { GivesMany Label.annotation annotation_parts result (flat (star annotation_rule) tokens.now) }
{
    let mut annotations = Vec::new(alloc);
    let mut rest = tokens;
    'annotations: while begins(rest, Kind::At) {
        keep(parse_annotation(rest), &mut annotations, &mut rest)?;
    }
    Ok((annotations, rest))
}

// `@`, a word, and perhaps a string in brackets.
#[tactic(auto, using(cedar_reading::proofs::Refusals::firsts))]
fn parse_annotation<'t, 'src>(
    tokens: &'t [Lexeme<'src>],
) -> Parsed<'t, 'src, Node<Annotation<'src>>>
    ensures shorter { IfOk result (λ x. length x.1.now < length tokens.now) }
    ensures reads { GivesNode Label.annotation annotation_parts result (flat annotation_rule tokens.now) }
{
    let (at, rest) = expect(tokens, Kind::At)?;
    let (key, rest) = parse_word(rest, Words::Any)?;
    let start = at.span.start;
    match past(rest, Kind::LParen) {
        Some(after) => {
            let ((value, end), rest) = followed_by(parse_str(after), Kind::RParen)?;
            let value = Some(value);
            let inner = Annotation { key, value };
            Ok((
                Node {
                    inner,
                    span: Span { start, end },
                },
                rest,
            ))
        }
        None => {
            let end = key.span.end;
            let inner = Annotation { key, value: None };
            Ok((
                Node {
                    inner,
                    span: Span { start, end },
                },
                rest,
            ))
        }
    }
}

// Whether a condition begins with the first token.
fn begins_cond(tokens: &[Lexeme]) -> bool
    ensures { result ≡ begins kind is_cond_word tokens.now }
{
    begins(tokens, Kind::When) || begins(tokens, Kind::Unless)
}

// Conditions, or none.
fn parse_conds<'t, 'src>(
    alloc: Global,
    tokens: &'t [Lexeme<'src>],
) -> Parsed<'t, 'src, Vec<Node<Cond<'src>>>>
    ensures shorter { IfOk result (λ x. length x.1.now ≤ length tokens.now) }
    ensures reads { GivesMany Label.condition cond_parts result (at_depth (suc greatest_depth) (star cond_rule) tokens.now) }
{
    let mut conds = Vec::new(alloc);
    let mut rest = tokens;
    'conds: while begins_cond(rest) {
        keep(parse_cond(alloc, rest), &mut conds, &mut rest)?;
    }
    Ok((conds, rest))
}

// `when` or `unless`, and an expression in braces.
fn parse_cond<'t, 'src>(
    alloc: Global,
    tokens: &'t [Lexeme<'src>],
) -> Parsed<'t, 'src, Node<Cond<'src>>>
    ensures shorter { IfOk result (λ x. length x.1.now < length tokens.now) }
    ensures reads { GivesNode Label.condition cond_parts result (at_depth (suc greatest_depth) cond_rule tokens.now) }
{
    let (cond, rest) = parse_word(tokens, Words::Condition)?;
    let (_, rest) = expect(rest, Kind::LBrace)?;
    let ((expr, end), rest) = followed_by(parse_expr(alloc, rest, MAX_NESTING), Kind::RBrace)?;
    let span = cond.span.to(end);
    let inner = Cond { cond, expr };
    Ok((Node { inner, span }, rest))
}

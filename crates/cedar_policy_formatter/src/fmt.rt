//! Formatting of whole texts.
ghost use Rattle.std.specs.Prelude.{◌≡◌, ◌↔◌, IsTrue, ◌++◌, ℕ, List, [], ◌∷◌, length, IfOk, OnOk, MatchBool, MatchResult, string_bytes, if◌then◌else◌};
ghost use Rattle.cedar_tokens.specs.Bytes.{line_feed};
ghost use Rattle.cedar_tokens.specs.Tokens.{comments_left};
ghost use Rattle.cedar_grammar.specs.declared.error.FormatError.TheVariants.{OutOfMemory};
ghost use Rattle.cedar_grammar.specs.Refusals.{OutOfMemoryOr, Refuses as RefusesByTrees};
ghost use Rattle.cedar_grammar.specs.Texts.{Accepted as AcceptedByTree};
ghost use Rattle.cedar_reading.specs.Lexemes.{AreLexemes};
ghost use Rattle.cedar_reading.specs.Pieces.{IsFirstPiece};
ghost use Rattle.cedar_laws.specs.Canonical.{IsOutputOf as IsOutputByTable};
ghost use Rattle.cedar_laws.specs.Output.{closing_text};
ghost use Rattle.cedar_written.specs.Lists.{HaveEqualLists};
ghost use Rattle.cedar_written.specs.Output.{IsOutputOf};
ghost use Rattle.cedar_written.specs.Refusals.{Refuses};
ghost use Rattle.cedar_written.specs.Texts.{Accepted};
ghost use Rattle.cedar_policy_formatter.specs.Texts.{IsTextOf, FailsCheck};

use cedar_cst::cst::laws::{accepted_is_not_refused, tree_is_of_accepted};
use cedar_cst::cst::{FormatError, Policies, parse_policies, same_tree};
use cedar_documents::config::Config;
pub use cedar_documents::laws::{
    accepted_texts_have_trees, cleaning_is_unique, cleaning_keeps_the_list, cleaning_takes_blanks,
    every_layout_reads_back, every_list_is_good, lists_join, outputs_are_determined,
    outputs_have_the_trees, own_tokens_are_met, policies_stand_alone,
};
use cedar_print::mark::Indent;
use cedar_reading::lexeme::Lexeme;
use cedar_reading::pieces::read_piece;
use cedar_tokens::lexer::listing_is_unique;
use cedar_tokens::token::{Comments, get_comment};
use cedar_writer::printer::{NotPrinted, PolicyPrinter};
pub use cedar_written::laws::{
    last_width_decides, outputs_are_canonical, outputs_keep_lists, texts_are_judged,
    written_outputs_agree, written_texts_agree,
};
use std::alloc::{AllocError, Global};

mod compare;
mod sink;
mod stream;

pub use crate::laws::{kept_policies_have_the_same_tokens, outputs_keep_the_policies};
pub use cedar_streams::{ReadFault, Watched, read_text};
pub use compare::same_layout;
use sink::{Rest, Sink};
pub use stream::{RunFault, check_stream, format_stream};

/// Lays out the policies `ps`.
///
/// The result has the list of `ps`: its tokens and comments, in order. Only trailing commas and leading zeros of numbers are
/// dropped. It is laid out as the written grammar says, at the width and the indentation of `config`, and it is accepted.
/// Every accepted text has a result, unless out of memory; every other is refused, with the reason and the place.
pub fn policies_str_to_pretty(
    alloc: Global,
    ps: &str,
    config: &Config,
) -> Result<String, FormatError>
    ensures list { IfOk result (λ out. HaveEqualLists ps.now (string_bytes out)) }
    ensures answer { MatchResult result (λ out. IsOutputOf config.now.line_width config.now.indent_width ps.now (string_bytes out)) (OutOfMemoryOr (Refuses ps.now)) }
{
    written_texts_agree();
    written_outputs_agree();
    outputs_keep_lists();
    let mut text = String::new(alloc);
    write_policies(alloc, ps, config, &mut text)?;
    Ok(text)
}

// Writes the output of a text, policy by policy.
fn write_policies<S: Sink>(
    alloc: Global,
    ps: &str,
    config: &Config,
    sink: &mut S,
) -> Result<(), FormatError>
    ensures answer { MatchResult result (λ _. AcceptedByTree ps.now) (OutOfMemoryOr (RefusesByTrees ps.now)) }
    ensures output { OnOk result ((out : List ℕ) × IsOutputByTable config.now.line_width config.now.indent_width ps.now out × S.takes sink.old out sink.new) }
{
    let mut lexemes = Vec::new(alloc);
    let mut printer = PolicyPrinter::new(alloc);
    let mut layout = String::new(alloc);
    let mut rest = ps;
    let mut is_empty = true;
    'pieces: while let Some(len) = read_piece(rest, &mut lexemes)? {
        if !lay_out(&mut printer, &rest[..len], &lexemes, config, &mut layout)? {
            return Err(refusal(alloc, ps));
        }
        put_feed(!is_empty, sink)?;
        sink.put(layout.as_str())?;
        rest = &rest[len..];
        is_empty = false;
    }
    if !is_accepted(alloc, rest)? {
        return Err(refusal(alloc, ps));
    }
    put_feed(is_empty, sink)?;
    Ok(put_closing(get_comment(rest), sink)?)
}

// Replaces `layout` by the output of a piece, which has these lexemes, if it is accepted; and whether it is.
fn lay_out<'src>(
    printer: &mut PolicyPrinter<'src>,
    piece: &'src str,
    lexemes: &[Lexeme<'src>],
    config: &Config,
    layout: &mut String,
) -> Result<bool, AllocError>
    requires piece { IsFirstPiece piece.now (length piece.now) }
    requires lexemes { AreLexemes piece.now lexemes.now }
    ensures { IfOk result (λ r. MatchBool r (IsOutputByTable config.now.line_width config.now.indent_width piece.now (string_bytes layout.new)) (¬ (AcceptedByTree piece.now))) }
{
    written_texts_agree();
    written_outputs_agree();
    let indent = Indent {
        columns: config.indent_width,
    };
    match printer.print(piece, lexemes, config.line_width, indent, layout) {
        Ok(()) => Ok(true),
        Err(NotPrinted::NotAccepted) => Ok(false),
        Err(NotPrinted::Unsound) => Ok(false),
        Err(NotPrinted::OutOfMemory) => Err(AllocError),
    }
}

// Whether a text is accepted.
fn is_accepted(alloc: Global, text: &str) -> Result<bool, AllocError>
    ensures { IfOk result (λ r. MatchBool r (AcceptedByTree text.now) (¬ (AcceptedByTree text.now))) }
{
    tree_is_of_accepted();
    accepted_is_not_refused();
    match parse_policies(alloc, text) {
        Ok(_) => Ok(true),
        Err(e) => {
            if is_memory(e) {
                Err(AllocError)
            } else {
                Ok(false)
            }
        }
    }
}

// Whether memory was refused.
fn is_memory(e: FormatError) -> bool
    ensures { MatchBool result (e ≡ OutOfMemory) (¬ (e ≡ OutOfMemory)) }
{
    matches!(e, FormatError::OutOfMemory)
}

// Why a text that isn't accepted is refused, as the parser says: the writer doesn't know of a fault of the lexis further on.
fn refusal(alloc: Global, text: &str) -> FormatError
    requires { ¬ (AcceptedByTree text.now) }
    ensures { OutOfMemoryOr (RefusesByTrees text.now) result }
{
    tree_is_of_accepted();
    match parse_policies(alloc, text) {
        Ok(_) => FormatError::Unsound,
        Err(e) => e,
    }
}

/// Checks that `ps` is a text of these policies: it is accepted, and its tree is this one except for spans. `Unsound` is
/// returned only if it isn't accepted or its tree is a different one; the only other error is out of memory.
/// The text and the tree share one lifetime: a function that makes the text itself makes it before it parses the tree.
pub fn soundness_check<'src>(
    alloc: Global,
    ps: &'src str,
    tree: &Policies<'src>,
) -> Result<(), FormatError>
    ensures { MatchResult result (λ _. IsTextOf ps.now tree.now) (FailsCheck ps.now tree.now) }
{
    accepted_is_not_refused();
    match parse_policies(alloc, ps) {
        Ok(other) => {
            if same_tree(&other, tree) {
                Ok(())
            } else {
                Err(FormatError::Unsound)
            }
        }
        Err(FormatError::OutOfMemory) => Err(FormatError::OutOfMemory),
        Err(_) => Err(FormatError::Unsound),
    }
}

/// Whether `ps` is as `policies_str_to_pretty` lays it out: it is its own output. Every accepted text gets an answer, unless
/// out of memory; every other is refused as there.
pub fn is_formatted(alloc: Global, ps: &str, config: &Config) -> Result<bool, FormatError>
    ensures answer { MatchResult result (λ _. Accepted ps.now) (OutOfMemoryOr (Refuses ps.now)) }
    ensures output { IfOk result (λ r. IsTrue r ↔ IsOutputOf config.now.line_width config.now.indent_width ps.now ps.now) }
{
    written_texts_agree();
    written_outputs_agree();
    outputs_are_canonical();
    listing_is_unique();
    let mut rest = Rest::new(ps);
    write_policies(alloc, ps, config, &mut rest)?;
    Ok(rest.is_used_up())
}

// A line feed, if one is wanted.
fn put_feed<S: Sink>(is_wanted: bool, sink: &mut S) -> Result<(), AllocError>
    ensures { OnOk result (S.takes sink.old (if is_wanted then line_feed ∷ [] else []) sink.new) }
{
    if is_wanted {
        sink.put("\n")?;
    }
    Ok(())
}

// Each closing comment with a line feed.
fn put_closing<S: Sink>(closing: Comments<'_>, sink: &mut S) -> Result<(), AllocError>
    ensures { OnOk result (S.takes sink.old (closing_text (comments_left closing.entry)) sink.new) }
{
    for comment in closing {
        sink.put(comment)?;
        sink.put("\n")?;
    }
    Ok(())
}

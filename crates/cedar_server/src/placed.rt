//! What an editor shows of a text, by the positions that it counts in.
ghost use Rattle.std.specs.Prelude.{IfOk};
ghost use Rattle.cedar_edits.specs.Positions.{BeginsLine, IsPositionAt};
ghost use Rattle.cedar_server.specs.Placed.{ArePlacedFolds, ArePlacedSelections, ArePlacedSymbols, ArePlacedTokens, IsPlacedSelection, IsRangeOf, PlacesFold, PlacesSymbol, PlacesToken};
ghost use Rattle.cedar_server.specs.Selections.{AreBlocks};

use crate::classes::Class;
use crate::folds::{Fold, FoldKind, folds};
use crate::selections::{blocks, blocks_around};
use crate::semantic::{SemanticToken, semantic_tokens};
use crate::symbols::{Symbol, symbols};
use cedar_edits::{Encoding, Line, Position, Range, line_from, offset_at, position_on};
use cedar_tokens::token::Span;
use std::alloc::{AllocError, Global};

/// A token or a comment with its class.
#[derive(Clone, Copy)]
pub struct PlacedToken {
    pub range: Range,
    pub class: Class,
}

/// A policy with its name.
#[derive(Drop)]
pub struct PlacedSymbol {
    pub name: String,
    /// All of the policy.
    pub range: Range,
    /// What its name is taken from.
    pub place: Range,
}

/// Lines that can be folded.
#[derive(Clone, Copy)]
pub struct PlacedFold {
    pub range: Range,
    pub kind: FoldKind,
}

/// The blocks around a position, from the innermost out: each has all of the one before, and more.
#[derive(Drop)]
pub struct PlacedSelection {
    pub ranges: Vec<Range>,
}

/// The tokens and comments of any text, in order, each with its class.
pub fn placed_tokens(
    alloc: Global,
    text: &str,
    encoding: Encoding,
) -> Result<Vec<PlacedToken>, AllocError>
    ensures { IfOk result (λ placed. ArePlacedTokens encoding text.now placed.items) }
{
    let tokens = semantic_tokens(alloc, text)?;
    let mut placed = Vec::new(alloc);
    let mut line = Line::FIRST;
    for token in &tokens {
        let (next, shown) = place_token(text, line, token, encoding);
        placed.push(shown)?;
        line = next;
    }
    Ok(placed)
}

/// The policies of a text with their names, in order.
pub fn placed_symbols(
    alloc: Global,
    text: &str,
    encoding: Encoding,
) -> Result<Vec<PlacedSymbol>, AllocError>
    ensures { IfOk result (λ placed. ArePlacedSymbols encoding text.now placed.items) }
{
    let symbols = symbols(alloc, text)?;
    let mut placed = Vec::new(alloc);
    let mut line = Line::FIRST;
    for symbol in &symbols {
        let (next, shown) = place_symbol(text, line, symbol, encoding)?;
        placed.push(shown)?;
        line = next;
    }
    Ok(placed)
}

/// What can be folded in a text, in order.
pub fn placed_folds(
    alloc: Global,
    text: &str,
    encoding: Encoding,
) -> Result<Vec<PlacedFold>, AllocError>
    ensures { IfOk result (λ placed. ArePlacedFolds encoding text.now placed.items) }
{
    let folds = folds(alloc, text)?;
    let mut placed = Vec::new(alloc);
    let mut line = Line::FIRST;
    for fold in &folds {
        let (next, shown) = place_fold(text, line, fold, encoding);
        placed.push(shown)?;
        line = next;
    }
    Ok(placed)
}

/// The blocks of a text around each of these positions.
pub fn placed_selections(
    alloc: Global,
    text: &str,
    positions: &[Position],
    encoding: Encoding,
) -> Result<Vec<PlacedSelection>, AllocError>
    ensures { IfOk result (λ placed. ArePlacedSelections encoding text.now positions.now placed.items) }
{
    let blocks = blocks(alloc, text)?;
    let mut placed = Vec::new(alloc);
    for position in positions {
        let selection = placed_selection(alloc, text, &blocks, *position, encoding)?;
        placed.push(selection)?;
    }
    Ok(placed)
}

// Those of the blocks of a text that are around a position.
fn placed_selection(
    alloc: Global,
    text: &str,
    blocks: &[Span],
    position: Position,
    encoding: Encoding,
) -> Result<PlacedSelection, AllocError>
    requires { AreBlocks text.now blocks.now }
    ensures { IfOk result (IsPlacedSelection encoding text.now position) }
{
    let at = offset_at(text, position, encoding);
    let spans = blocks_around(alloc, blocks, at)?;
    let mut ranges = Vec::new(alloc);
    for span in &spans {
        let (_, range) = place(text, Line::FIRST, *span, encoding);
        ranges.push(range)?;
    }
    Ok(PlacedSelection { ranges })
}

// A token, and the line where it begins, found by walking on from a line.
fn place_token(
    text: &str,
    from: Line,
    token: &SemanticToken,
    encoding: Encoding,
) -> (Line, PlacedToken)
    requires { BeginsLine text.now from.number from.start }
    ensures line { BeginsLine text.now result.0.number result.0.start }
    ensures token { PlacesToken encoding text.now token.now result.1 }
{
    let (line, range) = place(text, from, token.span, encoding);
    let class = token.class;
    (line, PlacedToken { range, class })
}

// A policy, and the line where it begins, found by walking on from a line.
fn place_symbol(
    text: &str,
    from: Line,
    symbol: &Symbol,
    encoding: Encoding,
) -> Result<(Line, PlacedSymbol), AllocError>
    requires { BeginsLine text.now from.number from.start }
    ensures line { IfOk result (λ r. BeginsLine text.now r.0.number r.0.start) }
    ensures symbol { IfOk result (λ r. PlacesSymbol encoding text.now symbol.now r.1) }
{
    let name = symbol.name.clone()?;
    let (line, range) = place(text, from, symbol.span, encoding);
    let (_, place) = place(text, line, symbol.place, encoding);
    Ok((line, PlacedSymbol { name, range, place }))
}

// What can be folded, and the line where it begins, found by walking on from a line.
fn place_fold(text: &str, from: Line, fold: &Fold, encoding: Encoding) -> (Line, PlacedFold)
    requires { BeginsLine text.now from.number from.start }
    ensures line { BeginsLine text.now result.0.number result.0.start }
    ensures fold { PlacesFold encoding text.now fold.now result.1 }
{
    let (line, range) = place(text, from, fold.span, encoding);
    let kind = fold.kind;
    (line, PlacedFold { range, kind })
}

// The positions of a part of the text, found by walking on from a line; and the line where it begins.
fn place(text: &str, from: Line, part: Span, encoding: Encoding) -> (Line, Range)
    requires { BeginsLine text.now from.number from.start }
    ensures line { BeginsLine text.now result.0.number result.0.start }
    ensures range { IsRangeOf encoding text.now part result.1 }
{
    let (line, start) = position_from(text, from, part.start, encoding);
    let (_, end) = position_from(text, line, part.end, encoding);
    (line, Range { start, end })
}

// The position of a byte, found by walking on from a line; and its line.
fn position_from(text: &str, from: Line, at: usize, encoding: Encoding) -> (Line, Position)
    requires { BeginsLine text.now from.number from.start }
    ensures line { BeginsLine text.now result.0.number result.0.start }
    ensures position { IsPositionAt encoding text.now at result.1 }
{
    let kept = text.floor_char_boundary(at);
    let line = line_from(text, from, kept);
    (line, position_on(text, line, kept, encoding))
}

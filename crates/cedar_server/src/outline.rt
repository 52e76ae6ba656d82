//! The answers to requests for what an editor shows of a document.
ghost use Rattle.std.specs.Prelude.{IfOk};
ghost use Rattle.cedar_server.specs.Outline.{ShowsFolds, ShowsSelections, ShowsSymbols, ShowsTokens};

use crate::messages::Answer;
use crate::placed::{placed_folds, placed_selections, placed_symbols, placed_tokens};
use cedar_edits::{Encoding, Position};
use std::alloc::{AllocError, Global};

/// The classes of the tokens and comments of a text.
pub(crate) fn tokens_of(alloc: Global, text: &str, encoding: Encoding) -> Result<Answer, AllocError>
    ensures { IfOk result (ShowsTokens encoding text.now) }
{
    let tokens = placed_tokens(alloc, text, encoding)?;
    Ok(Answer::Tokens(tokens))
}

/// The policies of a text by name.
pub(crate) fn symbols_of(
    alloc: Global,
    text: &str,
    encoding: Encoding,
) -> Result<Answer, AllocError>
    ensures { IfOk result (ShowsSymbols encoding text.now) }
{
    let symbols = placed_symbols(alloc, text, encoding)?;
    Ok(Answer::Symbols(symbols))
}

/// What can be folded in a text.
pub(crate) fn folds_of(alloc: Global, text: &str, encoding: Encoding) -> Result<Answer, AllocError>
    ensures { IfOk result (ShowsFolds encoding text.now) }
{
    let folds = placed_folds(alloc, text, encoding)?;
    Ok(Answer::Folds(folds))
}

/// The parts of a text around each of these positions.
pub(crate) fn selections_of(
    alloc: Global,
    text: &str,
    positions: &[Position],
    encoding: Encoding,
) -> Result<Answer, AllocError>
    ensures { IfOk result (ShowsSelections encoding positions.now text.now) }
{
    let selections = placed_selections(alloc, text, positions, encoding)?;
    Ok(Answer::Selections(selections))
}

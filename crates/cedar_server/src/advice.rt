//! The answers to requests about faults, and about what could come.
ghost use Rattle.std.specs.Prelude.{IfOk};
ghost use Rattle.cedar_server.specs.Advice.{Completes, GivesFixes};

use crate::completions::complete;
use crate::fixes::find_fixes;
use crate::messages::Answer;
use cedar_edits::{Encoding, Position, Range};
use std::alloc::{AllocError, Global};

/// The fixes of the faults of a document that a range touches.
pub(crate) fn fixes_for(
    alloc: Global,
    uri: &str,
    text: &str,
    range: Range,
    encoding: Encoding,
) -> Result<Answer, AllocError>
    ensures { IfOk result (GivesFixes encoding uri.now range text.now) }
{
    let fixes = find_fixes(alloc, text, range, encoding)?;
    let uri = String::from_str(alloc, uri)?;
    Ok(Answer::Fixes { uri, fixes })
}

/// What could come at a position of a text.
pub(crate) fn complete_at(
    alloc: Global,
    text: &str,
    position: Position,
    encoding: Encoding,
) -> Result<Answer, AllocError>
    ensures { IfOk result (Completes encoding position text.now) }
{
    let completions = complete(alloc, text, position, encoding)?;
    Ok(Answer::Completions(completions))
}

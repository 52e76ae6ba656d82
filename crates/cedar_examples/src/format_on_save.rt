//! Formatting on save.
ghost use Rattle.std.specs.Prelude.{◌≡◌, IfErr, OnErr, OnOk, string_bytes};
ghost use Rattle.cedar_grammar.specs.Refusals.{OutOfMemoryOr};
ghost use Rattle.cedar_written.specs.Output.{IsOutputOf};
ghost use Rattle.cedar_written.specs.Refusals.{Refuses};
ghost use Rattle.cedar_written.specs.Texts.{Accepted};

use cedar_policy_formatter::{Config, FormatError, policies_str_to_pretty};
use std::alloc::Global;

/// Lays out the policies of a buffer in place. A buffer that is refused is unchanged, and the error says why and where.
pub fn save(alloc: Global, buffer: &mut String, config: &Config) -> Result<(), FormatError>
    ensures accepted { OnOk result (Accepted (string_bytes buffer.old)) }
    ensures output { OnOk result (IsOutputOf config.now.line_width config.now.indent_width (string_bytes buffer.old) (string_bytes buffer.new)) }
    ensures refused { IfErr result (OutOfMemoryOr (Refuses (string_bytes buffer.old))) }
    ensures kept { OnErr result (string_bytes buffer.new ≡ string_bytes buffer.old) }
{
    *buffer = policies_str_to_pretty(alloc, buffer.as_str(), config)?;
    Ok(())
}

//! The texts of operators.
ghost use Rattle.std.specs.Prelude.{◌≡◌};
ghost use Rattle.cedar_grammar.specs.Erased.{addop_text, relop_text};

use cedar_grammar::tree::{AddOp, RelOp};

// The text of `+` or `-`.
pub(crate) fn add_op_text(op: AddOp) -> &'static str
    ensures { result.now ≡ addop_text op }
{
    match op {
        AddOp::Plus => "+",
        AddOp::Minus => "-",
    }
}

// The text of a comparison.
pub(crate) fn rel_op_text(op: RelOp) -> &'static str
    ensures { result.now ≡ relop_text op }
{
    match op {
        RelOp::Less => "<",
        RelOp::LessEq => "<=",
        RelOp::Greater => ">",
        RelOp::GreaterEq => ">=",
        RelOp::NotEq => "!=",
        RelOp::Eq => "==",
        RelOp::In => "in",
    }
}

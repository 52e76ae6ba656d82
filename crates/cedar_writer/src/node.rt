//! The tokens of a node, read and written by the line of the grammar that reads it.
ghost use Rattle.std.specs.Prelude.{◌≡◌, ◌<◌, ◌↔◌, [], IfOk, IsTrue, OnErr, vec_capacity};
ghost use Rattle.cedar_grammar.specs.Laws.{AreTokens};
ghost use Rattle.cedar_layout.specs.Layout.{Doc};
ghost use Rattle.cedar_print.specs.Marks.{marks_of};
ghost use Rattle.cedar_print.specs.WrittenMarks.{AreMarks};
ghost use Rattle.cedar_writer.specs.Bare.{is_bare, refers};
ghost use Rattle.cedar_writer.specs.Outcomes.{EndsSo, HasEnded, HasRoom, IsTooLong};
ghost use Rattle.cedar_writer.specs.declared.writer.Outcome.TheVariants as Ended;
ghost use Rattle.cedar_tokens.specs.declared.kind.Kind.TheVariants as K;
ghost use Rattle.cedar_tokens.specs.Kinds.{is};
ghost use Rattle.cedar_writer.specs.Rules.{group, nothing, star};
ghost use Rattle.cedar_writer.specs.Lines.{str};
ghost use Rattle.cedar_writer.specs.Writing.{finish, going};
ghost use Rattle.cedar_writer.specs.Depths.{alone, at_depth};
ghost use Rattle.cedar_writer.specs.NodeRules.{apart, bare_member, fields_member, lang_of, next_token, node_to, one_access, path_or_entity, primary, slot_member, variable};

use crate::sets::Set;
use crate::writer::{Outcome, Writer};
use cedar_print::mark::{Indent, Mark};
use cedar_reading::token::Token;
use cedar_tokens::kind::Kind;
use std::alloc::AllocError;
use std::mem;

/// The line of the grammar that reads a node.
#[derive(Clone, Copy)]
pub enum Line {
    Policy,
    Annotation,
    Variable,
    Condition,
    Expr,
    Or,
    And,
    Relation,
    Add,
    Mult,
    Unary,
    Member,
    Access,
    Primary,
    Init,
    Name,
    Ref,
    /// Any tokens, with a space between neighbours: no line.
    Tokens,
}

/// Reads the tokens of a node by the line of the grammar that reads it, and writes the marks of the document that this line
/// has for them. Returns whether they are a row of the line; if not, they aren't all read. `indent` is the indentation; an
/// expression may nest `depth` ifs and brackets.
///
/// The former marks are dropped, and their memory is reused; more is asked for only if that is too little. If the tokens aren't
/// read, the marks are unspecified, as they are if memory is refused.
pub fn write_node<'src>(
    tokens: &[Token<'_, 'src>],
    marks: &mut Vec<Mark<'src>>,
    line: Line,
    indent: Indent,
    depth: usize,
) -> Result<bool, AllocError>
    ensures row { (d : Doc) → lang_of indent.columns depth line tokens.now d → IfOk result (λ read. IsTrue read × AreMarks (marks_of marks.new.items) d) }
    ensures memory { OnErr result (IsTooLong indent.columns depth line (is_bare tokens.now) tokens.now (vec_capacity marks.old)) }
    ensures read { AreTokens (λ t. t.text) tokens.now → IfOk result (λ read. IsTrue read → (d : Doc) × AreMarks (marks_of marks.new.items) d × lang_of indent.columns depth line tokens.now d) }
{
    let outcome = write_line(tokens, marks, line, is_bare(tokens), indent, depth)?;
    Ok(is_whole(outcome))
}

// Whether all tokens were read.
fn is_whole(outcome: Outcome) -> bool
    ensures { IsTrue result ↔ (outcome ≡ Ended.Written 0) }
{
    matches!(outcome, Outcome::Written { left: 0 })
}

/// Reads and writes tokens by a line; how that ended, where there was room for the marks. `is_bare` says whether the tokens begin
/// like an operand that no expression is.
pub(crate) fn write_line<'src>(
    tokens: &[Token<'_, 'src>],
    marks: &mut Vec<Mark<'src>>,
    line: Line,
    is_bare: bool,
    indent: Indent,
    depth: usize,
) -> Result<Outcome, AllocError>
    ensures ended { IfOk result (EndsSo indent.columns depth line is_bare tokens.now (marks_of marks.new.items)) }
    ensures room { IfOk result HasRoom }
    ensures memory { OnErr result (IsTooLong indent.columns depth line is_bare tokens.now (vec_capacity marks.old)) }
{
    let mut room = marks.capacity();
    let mut outcome = attempt(tokens, marks, room, line, is_bare, indent, depth)?;
    for _ in 0..usize::BITS {
        if !matches!(outcome, Outcome::OutOfRoom) {
            break;
        }
        room = room
            .saturating_mul(2)
            .max(tokens.len().saturating_mul(8))
            .max(64);
        outcome = attempt(tokens, marks, room, line, is_bare, indent, depth)?;
    }
    match outcome {
        Outcome::OutOfRoom => Err(AllocError),
        _ => Ok(outcome),
    }
}

// The same with room for so many marks; how that ended.
fn attempt<'src>(
    tokens: &[Token<'_, 'src>],
    marks: &mut Vec<Mark<'src>>,
    room: usize,
    line: Line,
    is_bare: bool,
    indent: Indent,
    depth: usize,
) -> Result<Outcome, AllocError>
    ensures ended { IfOk result (HasEnded (node_to indent.columns depth line is_bare (going tokens.now [] room)) (marks_of marks.new.items)) }
    ensures full { OnErr result (vec_capacity marks.old < room) }
{
    let kept = mem::replace(marks, Vec::new(*marks.allocator()));
    let mut writer = Writer::new(kept, tokens, room)?;
    writer.node(line, is_bare, indent, depth);
    let (written, outcome) = writer.finish();
    *marks = written;
    Ok(outcome)
}

// Whether the tokens begin like an operand that no expression is: with a slot, or with a name that neither `::` nor `(` follows.
fn is_bare(tokens: &[Token<'_, '_>]) -> bool
    ensures { result ≡ is_bare tokens.now }
{
    match tokens {
        [] => false,
        [first, rest @ ..] => {
            Set::Slot.contains(first.kind()) || Set::Name.contains(first.kind()) && !refers(rest)
        }
    }
}

// Whether a `::` or a `(` comes.
fn refers(tokens: &[Token<'_, '_>]) -> bool
    ensures { result ≡ refers tokens.now }
{
    match tokens {
        [] => false,
        [first, ..] => Set::Referring.contains(first.kind()),
    }
}

impl Writer<'_, '_, '_> {
    /// The tokens of a node; `is_bare` says whether they begin like an operand that no expression is.
    pub(crate) fn node(&mut self, line: Line, is_bare: bool, indent: Indent, depth: usize)
        ensures { self.new ≡ node_to indent.columns depth line is_bare self.old }
    {
        match line {
            Line::Policy => self.policy(indent, depth),
            Line::Annotation => self.annotation(),
            Line::Variable => self.variable(indent),
            Line::Condition => self.cond(indent, depth),
            Line::Expr => self.expr(indent, depth),
            Line::Or => self.or(indent, depth),
            Line::And => self.and(indent, depth),
            Line::Relation => self.relation(indent, depth),
            Line::Add if is_bare => self.bare_add(indent),
            Line::Add => self.add(indent, depth),
            Line::Mult if is_bare => self.bare_mult(indent),
            Line::Mult => self.mult(indent, depth),
            Line::Unary | Line::Member if is_bare => self.bare_member(indent),
            Line::Unary => self.unary(indent, depth),
            Line::Member => self.member(indent, depth),
            Line::Access => self.one_access(indent, depth),
            Line::Primary => self.primary(indent, depth),
            Line::Init => self.init(indent, depth),
            Line::Name => self.path(),
            Line::Ref => self.entity(),
            Line::Tokens => self.tokens(),
        }
    }

    // Any tokens, with a space between neighbours.
    fn tokens(&mut self)
        ensures { self.new ≡ alone apart self.old }
    {
        self.take(Set::Any);
        self.next_tokens();
    }

    // {' ' TOKEN}
    fn next_tokens(&mut self)
        ensures { self.new ≡ alone (star next_token) self.old }
    {
        'tokens: while self.begins(Set::Any) {
            self.next_token();
        }
    }

    // ' ' TOKEN
    fn next_token(&mut self)
        ensures { self.new ≡ alone next_token self.old }
    {
        self.put(Mark::Space);
        self.take(Set::Any);
    }

    // Principal, Action or Resource
    #[tactic(auto, unfolding(crate::specs::Parts::scoped, crate::specs::Parts::action))]
    fn variable(&mut self, indent: Indent)
        ensures { self.new ≡ alone (variable indent.columns) self.old }
    {
        if self.begins(Set::Only(Kind::Principal)) {
            self.scoped(indent, Kind::Principal, Kind::PrincipalSlot);
        } else if self.begins(Set::Only(Kind::Action)) {
            self.action(indent);
        } else {
            self.scoped(indent, Kind::Resource, Kind::ResourceSlot);
        }
    }

    // a field, a call or an index
    fn one_access(&mut self, indent: Indent, depth: usize)
        ensures { self.new ≡ at_depth indent.columns depth (one_access indent.columns) self.old }
    {
        if self.begins(Set::Only(Kind::Dot)) {
            self.field();
        } else if self.begins(Set::Only(Kind::LParen)) {
            self.call(indent, depth);
        } else {
            self.index();
        }
    }

    // Primary, or a slot, or a path
    fn primary(&mut self, indent: Indent, depth: usize)
        ensures { self.new ≡ at_depth indent.columns depth (primary indent.columns) self.old }
    {
        if self.begins(Set::Literal) {
            self.literal(indent, depth);
        } else if self.begins(Set::Slot) {
            self.take(Set::Slot);
        } else {
            self.path_or_entity();
        }
    }

    // Path ['::' STR]
    fn path_or_entity(&mut self)
        ensures { self.new ≡ alone path_or_entity self.old }
    {
        self.take(Set::Ident);
        self.words();
        self.path_end();
    }

    // ['::' STR]
    fn path_end(&mut self)
        ensures { self.new ≡ finish (is K.DoubleColon) (alone str) (alone nothing) self.old }
    {
        if self.begins(Set::Only(Kind::DoubleColon)) {
            self.take(Set::Only(Kind::DoubleColon));
            self.take(Set::Only(Kind::Str));
        }
    }

    // a slot alone
    fn slot_member(&mut self, indent: Indent)
        ensures { self.new ≡ alone (slot_member indent.columns) self.old }
    {
        self.put(Mark::Begin);
        self.take(Set::Slot);
        self.put(Mark::Nest(indent));
        self.put(Mark::EndNest);
        self.put(Mark::EndGroup);
    }

    // IDENT {'.' IDENT}
    fn fields_member(&mut self, indent: Indent)
        ensures { self.new ≡ alone (fields_member indent.columns) self.old }
    {
        self.put(Mark::Begin);
        self.take(Set::Ident);
        self.put(Mark::Nest(indent));
        self.some_fields();
        self.put(Mark::EndNest);
        self.put(Mark::EndGroup);
    }

    // either of them
    fn bare_member(&mut self, indent: Indent)
        ensures { self.new ≡ alone (bare_member indent.columns) self.old }
    {
        if self.begins(Set::Slot) {
            self.slot_member(indent);
        } else {
            self.fields_member(indent);
        }
    }

    // the same in a group
    fn bare_mult(&mut self, indent: Indent)
        ensures { self.new ≡ alone (group (bare_member indent.columns)) self.old }
    {
        self.put(Mark::Begin);
        self.bare_member(indent);
        self.put(Mark::EndGroup);
    }

    // the same in two
    fn bare_add(&mut self, indent: Indent)
        ensures { self.new ≡ alone (group (group (bare_member indent.columns))) self.old }
    {
        self.put(Mark::Begin);
        self.bare_mult(indent);
        self.put(Mark::EndGroup);
    }
}

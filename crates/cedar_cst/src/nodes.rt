//! Nodes of expressions, made of their parts. If a part was just read, its refusal is passed on. Nested parsing passes
//! nodes up in boxes, and a function that makes one is never inlined, so that no node lies on the stack while what is nested
//! in it is read.
ghost use Rattle.std.specs.Prelude.{◌≡◌, ◌<◌, length, IfOk, MatchResult, box_value, codes};
ghost use Rattle.cedar_tokens.specs.declared.kind.Kind.TheVariants as K;
ghost use Rattle.cedar_grammar.specs.Reader.Lines.{◌▸◌, ◌∥◌, one_of, text_operand, has_field};
ghost use Rattle.cedar_reading.specs.Reading.{flat, Keeps, PassesOn};
ghost use Rattle.cedar_reading.specs.ReadingParts.{Makes, IsOrExprOf};
ghost use Rattle.cedar_reading.specs.declared.reading.Refusal.TheVariants.{OutOfMemory};
ghost use Rattle.cedar_cst.specs.Boxed.{unboxed, signed, IsNotLonger, MakesClosed, MakesWord, GivesKey, key_reader};
ghost use Rattle.cedar_cst.specs.ReadingItems.{IsListOf};
ghost use Rattle.cedar_cst.specs.ReadingExprs.{end_of_last, IsOrOf, IsAndOf, IsAddOf, IsMultOf, IsMemberOf, IsUnaryOf, IsLoneRelationOf, IsComparedOf, IsTypeTestOf, IsCallOf, IsParensOf, IsRecordOf, IsInitOf, IsIfOf, IsBeside, IsTyped, IsUncalled, IsCalled, type_test_end};

use cedar_grammar::tree::{
    Add, AddOp, And, Expr, MemAccess, Member, Mult, MultOp, Name, NegOp, Node, Or, Primary,
    RecInit, RelOp, Relation, Unary,
};
use cedar_reading::accesses::{accesses_end, parse_has_field, parse_pattern};
use cedar_reading::lexeme::Lexeme;
use cedar_reading::names::{name_primary, parse_key};
use cedar_reading::reading::{Parsed, Refusal, followed_by};
use cedar_reading::signs::signed_start;
use cedar_tokens::kind::Kind;
use cedar_tokens::token::Span;
use std::alloc::Global;

/// A primary and its accesses.
pub type Item<'src> = (Box<Node<Primary<'src>>>, Vec<Node<MemAccess<'src>>>);

/// Drops this out of line.
#[inline(never)]
pub fn drop_apart<T: Drop>(_item: T) {}

/// Keeps an item that was read, out of its box, and continues after it.
#[inline(never)]
pub fn keep_boxed<'t, 'src, T: Drop>(
    read: Parsed<'t, 'src, Box<T>>,
    items: &mut Vec<T>,
    rest: &mut &'t [Lexeme<'src>],
) -> Result<(), Refusal>
    ensures { Keeps (unboxed read.entry) items.old.items items.new.items rest.new result }
{
    match read {
        Ok((item, after)) => {
            *rest = after;
            items.push(Box::into_inner(item))?;
            Ok(())
        }
        Err(refusal) => Err(refusal),
    }
}

/// Keeps an item that was read, out of its box and with the sign before it, and continues after it.
#[inline(never)]
pub fn keep_signed<'t, 'src, S: Drop, T: Drop>(
    sign: S,
    read: Parsed<'t, 'src, Box<T>>,
    items: &mut Vec<(S, T)>,
    rest: &mut &'t [Lexeme<'src>],
) -> Result<(), Refusal>
    ensures { Keeps (signed sign read.entry) items.old.items items.new.items rest.new result }
{
    match read {
        Ok((operand, after)) => {
            *rest = after;
            items.push((sign, Box::into_inner(operand)))?;
            Ok(())
        }
        Err(refusal) => Err(refusal),
    }
}

/// What was read, and this before it.
pub fn beside<'t, 'src, S: Drop, T: Drop>(
    first: S,
    read: Parsed<'t, 'src, T>,
) -> Parsed<'t, 'src, (S, T)>
    ensures passes { PassesOn read.entry result }
    ensures made { Makes (IsBeside first) read.entry result }
{
    let (item, rest) = read?;
    Ok(((first, item), rest))
}

/// Operands of `||` as an expression.
pub fn or_expr<'src>(or: Box<Node<Or<'src>>>) -> Node<Expr<'src>>
    ensures { IsOrExprOf (box_value or.entry) result }
{
    let span = or.span;
    let inner = Expr::Or(or);
    Node { inner, span }
}

// An `if` that starts at `start`, with these expressions.
fn if_expr<'src>(
    start: usize,
    test: Box<Node<Expr<'src>>>,
    yes: Box<Node<Expr<'src>>>,
    no: Box<Node<Expr<'src>>>,
) -> Node<Expr<'src>>
    ensures { IsIfOf start (box_value test.entry) (box_value yes.entry) (box_value no.entry) result }
{
    let end = no.span.end;
    Node {
        inner: Expr::If(test, yes, no),
        span: Span { start, end },
    }
}

/// An `if` that starts at `start`, with its three expressions.
pub fn if_node<'src>(
    alloc: Global,
    start: usize,
    test: Node<Expr<'src>>,
    yes: Node<Expr<'src>>,
    no: Node<Expr<'src>>,
) -> Result<Node<Expr<'src>>, Refusal>
    ensures { MatchResult result (IsIfOf start test.entry yes.entry no.entry) (λ e. e ≡ OutOfMemory) }
{
    let test = Box::new(alloc, test)?;
    let yes = Box::new(alloc, yes)?;
    let no = Box::new(alloc, no)?;
    Ok(if_expr(start, test, yes, no))
}

// Where the last of these nodes ends; `end` if there is none.
fn nodes_end<T: Drop>(end: usize, nodes: &[Node<T>]) -> usize
    ensures { result ≡ end_of_last (λ n. n) end nodes.now }
{
    match nodes.last() {
        Some(last) => last.span.end,
        None => end,
    }
}

// Where the last of these nodes with signs before them ends; `end` if there is none.
fn signed_end<S: Drop, T: Drop>(end: usize, nodes: &[(S, Node<T>)]) -> usize
    ensures { result ≡ end_of_last (λ x. x.1) end nodes.now }
{
    match nodes.last() {
        Some((_, last)) => last.span.end,
        None => end,
    }
}

/// Operands of `||`.
#[inline(never)]
pub fn or_node<'src>(
    alloc: Global,
    initial: Box<Node<And<'src>>>,
    extended: Vec<Node<And<'src>>>,
) -> Result<Box<Node<Or<'src>>>, Refusal>
    ensures { MatchResult result (IsOrOf initial.entry extended.entry.items) (λ e. e ≡ OutOfMemory) }
{
    let initial = Box::into_inner(initial);
    let end = nodes_end(initial.span.end, &extended);
    let span = initial.span.to(end);
    let inner = Or { initial, extended };
    Ok(Box::new(alloc, Node { inner, span })?)
}

/// Operands of `&&`.
#[inline(never)]
pub fn and_node<'src>(
    alloc: Global,
    initial: Box<Node<Relation<'src>>>,
    extended: Vec<Node<Relation<'src>>>,
) -> Result<Box<Node<And<'src>>>, Refusal>
    ensures { MatchResult result (IsAndOf initial.entry extended.entry.items) (λ e. e ≡ OutOfMemory) }
{
    let initial = Box::into_inner(initial);
    let end = nodes_end(initial.span.end, &extended);
    let span = initial.span.to(end);
    let inner = And { initial, extended };
    Ok(Box::new(alloc, Node { inner, span })?)
}

/// Operands of `+` and `-`.
#[inline(never)]
pub fn add_node<'src>(
    alloc: Global,
    initial: Box<Node<Mult<'src>>>,
    extended: Vec<(AddOp, Node<Mult<'src>>)>,
) -> Result<Box<Node<Add<'src>>>, Refusal>
    ensures { MatchResult result (IsAddOf initial.entry extended.entry.items) (λ e. e ≡ OutOfMemory) }
{
    let initial = Box::into_inner(initial);
    let end = signed_end(initial.span.end, &extended);
    let span = initial.span.to(end);
    let inner = Add { initial, extended };
    Ok(Box::new(alloc, Node { inner, span })?)
}

/// Operands of `*`.
#[inline(never)]
pub fn mult_node<'src>(
    alloc: Global,
    initial: Box<Node<Unary<'src>>>,
    extended: Vec<(MultOp, Node<Unary<'src>>)>,
) -> Result<Box<Node<Mult<'src>>>, Refusal>
    ensures { MatchResult result (IsMultOf initial.entry extended.entry.items) (λ e. e ≡ OutOfMemory) }
{
    let initial = Box::into_inner(initial);
    let end = signed_end(initial.span.end, &extended);
    let span = initial.span.to(end);
    let inner = Mult { initial, extended };
    Ok(Box::new(alloc, Node { inner, span })?)
}

/// A member and the signs before it, which come first in the tokens.
#[inline(never)]
pub fn unary_node<'t, 'src>(
    alloc: Global,
    tokens: &[Lexeme],
    op: Option<NegOp>,
    read: Parsed<'t, 'src, Box<Node<Member<'src>>>>,
) -> Parsed<'t, 'src, Box<Node<Unary<'src>>>>
    ensures passes { PassesOn read.entry result }
    ensures made { Makes (IsUnaryOf tokens.now op) read.entry result }
{
    let (item, rest) = read?;
    let item = Box::into_inner(item);
    let start = signed_start(tokens, op, item.span);
    let end = item.span.end;
    let inner = Unary { op, item };
    let span = Span { start, end };
    Ok((Box::new(alloc, Node { inner, span })?, rest))
}

/// A primary with its accesses.
#[inline(never)]
pub fn member_node<'src>(
    alloc: Global,
    item: Box<Node<Primary<'src>>>,
    access: Vec<Node<MemAccess<'src>>>,
) -> Result<Box<Node<Member<'src>>>, Refusal>
    ensures { MatchResult result (IsMemberOf item.entry access.entry.items) (λ e. e ≡ OutOfMemory) }
{
    let item = Box::into_inner(item);
    let end = accesses_end(item.span.end, &access);
    let span = item.span.to(end);
    let inner = Member { item, access };
    Ok(Box::new(alloc, Node { inner, span })?)
}

/// One operand alone.
#[inline(never)]
pub fn lone_relation<'src>(
    alloc: Global,
    initial: Box<Node<Add<'src>>>,
) -> Result<Box<Node<Relation<'src>>>, Refusal>
    ensures { MatchResult result (IsLoneRelationOf initial.entry) (λ e. e ≡ OutOfMemory) }
{
    let initial = Box::into_inner(initial);
    let span = initial.span;
    let extended = None;
    let inner = Relation::Common { initial, extended };
    Ok(Box::new(alloc, Node { inner, span })?)
}

/// Two operands with a comparison between them.
#[inline(never)]
pub fn compared_node<'t, 'src>(
    alloc: Global,
    initial: Box<Node<Add<'src>>>,
    read: Parsed<'t, 'src, (RelOp, Box<Node<Add<'src>>>)>,
) -> Parsed<'t, 'src, Box<Node<Relation<'src>>>>
    ensures passes { PassesOn read.entry result }
    ensures made { Makes (IsComparedOf initial.entry) read.entry result }
{
    let ((op, operand), rest) = read?;
    let initial = Box::into_inner(initial);
    let operand = Box::into_inner(operand);
    let span = initial.span.to(operand.span.end);
    let extended = Some((op, operand));
    let inner = Relation::Common { initial, extended };
    Ok((Box::new(alloc, Node { inner, span })?, rest))
}

/// An operand, `has`, and what follows it.
#[inline(never)]
pub fn has_node<'t, 'src>(
    alloc: Global,
    target: Box<Node<Add<'src>>>,
    tokens: &'t [Lexeme<'src>],
) -> Parsed<'t, 'src, Box<Node<Relation<'src>>>>
    ensures shorter { IfOk result (λ x. length x.1.now < length tokens.now) }
    ensures reads { MakesWord K.Has (flat (one_of K.Has ▸ (text_operand ∥ has_field))) (codes "has") target.entry tokens.now result }
{
    let (field, rest) = parse_has_field(alloc, tokens)?;
    let target = Box::into_inner(target);
    let span = target.span.to(field.span.end);
    let inner = Relation::Has { target, field };
    Ok((Box::new(alloc, Node { inner, span })?, rest))
}

/// An operand, `like`, and the pattern after it.
#[inline(never)]
pub fn like_node<'t, 'src>(
    alloc: Global,
    target: Box<Node<Add<'src>>>,
    tokens: &'t [Lexeme<'src>],
) -> Parsed<'t, 'src, Box<Node<Relation<'src>>>>
    ensures shorter { IfOk result (λ x. length x.1.now < length tokens.now) }
    ensures reads { MakesWord K.Like (flat (one_of K.Like ▸ text_operand)) (codes "like") target.entry tokens.now result }
{
    let (pattern, rest) = parse_pattern(alloc, tokens)?;
    let target = Box::into_inner(target);
    let span = target.span.to(pattern.span.end);
    let inner = Relation::Like { target, pattern };
    Ok((Box::new(alloc, Node { inner, span })?, rest))
}

/// A type, and the operand after `in`.
#[inline(never)]
pub fn type_and_operand<'t, 'src>(
    entity_type: Node<Name<'src>>,
    read: Parsed<'t, 'src, Box<Node<Add<'src>>>>,
) -> Parsed<'t, 'src, (Node<Name<'src>>, Option<Box<Node<Add<'src>>>>)>
    ensures passes { PassesOn read.entry result }
    ensures made { Makes (IsTyped entity_type.entry) read.entry result }
{
    let (operand, rest) = read?;
    Ok(((entity_type, Some(operand)), rest))
}

// Where a type ends, or the operand after it.
fn type_end(entity_type: &Node<Name<'_>>, operand: &Option<Box<Node<Add<'_>>>>) -> usize
    ensures { result ≡ type_test_end entity_type.now operand.now }
{
    match operand {
        Some(operand) => operand.span.end,
        None => entity_type.span.end,
    }
}

/// An operand with what follows `is`.
#[inline(never)]
pub fn is_node<'t, 'src>(
    alloc: Global,
    target: Box<Node<Add<'src>>>,
    read: Parsed<'t, 'src, (Node<Name<'src>>, Option<Box<Node<Add<'src>>>>)>,
) -> Parsed<'t, 'src, Box<Node<Relation<'src>>>>
    ensures passes { PassesOn read.entry result }
    ensures made { Makes (IsTypeTestOf target.entry) read.entry result }
{
    let ((entity_type, operand), rest) = read?;
    let target = Box::into_inner(target);
    let span = target.span.to(type_end(&entity_type, &operand));
    let in_entity = operand.map(Box::into_inner);
    let inner = Relation::IsIn {
        target,
        entity_type,
        in_entity,
    };
    Ok((Box::new(alloc, Node { inner, span })?, rest))
}

/// A primary that is not called, before these tokens.
#[inline(never)]
pub fn lone_item<'t, 'src>(
    alloc: Global,
    primary: Node<Primary<'src>>,
    rest: &'t [Lexeme<'src>],
) -> Parsed<'t, 'src, Item<'src>>
    ensures { MatchResult result (λ x. IsUncalled primary.entry x.0 × (x.1.now ≡ rest.now)) (λ e. e ≡ OutOfMemory) }
{
    Ok(((Box::new(alloc, primary)?, Vec::new(alloc)), rest))
}

/// A primary that is not called.
#[inline(never)]
pub fn uncalled<'t, 'src>(
    alloc: Global,
    read: Parsed<'t, 'src, Box<Node<Primary<'src>>>>,
) -> Parsed<'t, 'src, Item<'src>>
    ensures passes { PassesOn read.entry result }
    ensures made { Makes IsUncalled (unboxed read.entry) result }
{
    let (primary, rest) = read?;
    Ok(((primary, Vec::new(alloc)), rest))
}

/// A path and its call.
#[inline(never)]
pub fn called<'t, 'src>(
    alloc: Global,
    name: Node<Name<'src>>,
    read: Parsed<'t, 'src, Node<MemAccess<'src>>>,
) -> Parsed<'t, 'src, Item<'src>>
    ensures passes { PassesOn read.entry result }
    ensures made { Makes (IsCalled name.entry) read.entry result }
{
    let (call, rest) = read?;
    let mut access = Vec::new(alloc);
    access.push(call)?;
    Ok(((Box::new(alloc, name_primary(name))?, access), rest))
}

/// A call that starts at `start`, with its arguments and the end of the closing bracket.
pub fn call_node<'t, 'src>(
    start: usize,
    read: Parsed<'t, 'src, (Vec<Node<Expr<'src>>>, usize)>,
) -> Parsed<'t, 'src, Node<MemAccess<'src>>>
    ensures passes { PassesOn read.entry result }
    ensures made { Makes (IsCallOf start) read.entry result }
{
    let ((arguments, end), rest) = read?;
    let inner = MemAccess::Call(arguments);
    let span = Span { start, end };
    Ok((Node { inner, span }, rest))
}

/// A parenthesis that starts at `start`, with its closing bracket.
#[inline(never)]
pub fn parens_node<'t, 'src>(
    alloc: Global,
    start: usize,
    read: Parsed<'t, 'src, Node<Expr<'src>>>,
) -> Parsed<'t, 'src, Box<Node<Primary<'src>>>>
    ensures shorter { IsNotLonger read.entry result }
    ensures made { MakesClosed K.RParen (IsParensOf start) read.entry result }
{
    let ((expr, end), rest) = followed_by(read, Kind::RParen)?;
    let inner = Primary::Expr(Box::new(alloc, expr)?);
    let span = Span { start, end };
    Ok((Box::new(alloc, Node { inner, span })?, rest))
}

/// A list that starts at `start`, with its closing bracket.
#[inline(never)]
pub fn list_node<'t, 'src>(
    alloc: Global,
    start: usize,
    read: Parsed<'t, 'src, Vec<Node<Expr<'src>>>>,
) -> Parsed<'t, 'src, Box<Node<Primary<'src>>>>
    ensures shorter { IsNotLonger read.entry result }
    ensures made { MakesClosed K.RBracket (IsListOf start) read.entry result }
{
    let ((items, end), rest) = followed_by(read, Kind::RBracket)?;
    let inner = Primary::EList(items);
    let span = Span { start, end };
    Ok((Box::new(alloc, Node { inner, span })?, rest))
}

/// A record that starts at `start`, with its closing brace.
#[inline(never)]
pub fn record_node<'t, 'src>(
    alloc: Global,
    start: usize,
    read: Parsed<'t, 'src, Vec<Node<RecInit<'src>>>>,
) -> Parsed<'t, 'src, Box<Node<Primary<'src>>>>
    ensures shorter { IsNotLonger read.entry result }
    ensures made { MakesClosed K.RBrace (IsRecordOf start) read.entry result }
{
    let ((entries, end), rest) = followed_by(read, Kind::RBrace)?;
    let inner = Primary::RInits(entries);
    let span = Span { start, end };
    Ok((Box::new(alloc, Node { inner, span })?, rest))
}

/// A key of a record, and the colon after it.
#[inline(never)]
pub fn record_key<'t, 'src>(
    alloc: Global,
    tokens: &'t [Lexeme<'src>],
) -> Parsed<'t, 'src, Box<Node<Primary<'src>>>>
    ensures shorter { IfOk result (λ x. length x.1.now < length tokens.now) }
    ensures reads { GivesKey (unboxed result) (key_reader tokens.now) }
{
    let ((key, _), rest) = followed_by(parse_key(alloc, tokens), Kind::Colon)?;
    Ok((Box::new(alloc, key)?, rest))
}

/// A key with its value.
#[inline(never)]
pub fn init_node<'t, 'src>(
    alloc: Global,
    key: Box<Node<Primary<'src>>>,
    read: Parsed<'t, 'src, Node<Expr<'src>>>,
) -> Parsed<'t, 'src, Box<Node<RecInit<'src>>>>
    ensures passes { PassesOn read.entry result }
    ensures made { Makes (IsInitOf key.entry) read.entry result }
{
    let (value, rest) = read?;
    let key = Box::into_inner(key);
    let span = key.span.to(value.span.end);
    let inner = RecInit { key, value };
    Ok((Box::new(alloc, Node { inner, span })?, rest))
}

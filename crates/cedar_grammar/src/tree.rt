//! The node types: one for each level of the grammar.
ghost use Rattle.std.specs.Prelude.{◌↔◌, IsTrue};
ghost use Rattle.std.specs.Cmp.Rules.{comparing};
ghost use Rattle.std.proofs.Common.{rules};
ghost use Rattle.cedar_grammar.specs.Erased.{SameTree};

use crate::tree_laws::same_tree_is_by_fields;
use cedar_tokens::token::Span;

/// A part of a text, from its first token's start to its last token's end.
#[derive(Drop)]
pub struct Node<T> {
    pub inner: T,
    pub span: Span,
}

/// Nodes are equal if their contents are, wherever they are in the text.
impl<T: PartialEq> PartialEq for Node<T> {
    ghost eq = { λ a b. T.eq a.inner b.inner };

    ghost laws = { Prim.search (comparing, rules) };

    fn eq(&self, other: &Node<T>) -> bool {
        self.inner == other.inner
    }
}

/// The policies of a text, in order.
#[derive(PartialEq, Drop)]
pub struct Policies<'src> {
    pub policies: Vec<Node<Policy<'src>>>,
}

/// A policy: its annotations, `permit` or `forbid`, the scope's variables, and its conditions.
#[derive(PartialEq, Drop)]
pub struct Policy<'src> {
    pub annotations: Vec<Node<Annotation<'src>>>,
    pub effect: Node<Ident<'src>>,
    pub variables: (
        Node<VariableDef<'src>>,
        Node<VariableDef<'src>>,
        Node<VariableDef<'src>>,
    ),
    pub conds: Vec<Node<Cond<'src>>>,
}

/// `@key`, or `@key("value")`.
#[derive(PartialEq, Drop)]
pub struct Annotation<'src> {
    pub key: Node<Ident<'src>>,
    pub value: Option<Node<Str<'src>>>,
}

/// A variable of the scope, its type after `is`, and its operator with what follows it.
#[derive(PartialEq, Drop)]
pub struct VariableDef<'src> {
    pub variable: Node<Ident<'src>>,
    pub entity_type: Option<Node<Name<'src>>>,
    pub ineq: Option<(RelOp, Node<Add<'src>>)>,
}

/// `when { .. }` or `unless { .. }`.
#[derive(PartialEq, Drop)]
pub struct Cond<'src> {
    pub cond: Node<Ident<'src>>,
    pub expr: Node<Expr<'src>>,
}

/// An expression: `if`, `then` and `else`, or operands of `||`.
#[cycle(tree)]
#[derive(PartialEq, Drop)]
pub enum Expr<'src> {
    If(Box<Node<Expr<'src>>>, Box<Node<Expr<'src>>>, Box<Node<Expr<'src>>>),
    Or(Box<Node<Or<'src>>>),
}

/// Operands of `||`.
#[cycle(tree)]
#[derive(PartialEq, Drop)]
pub struct Or<'src> {
    pub initial: Node<And<'src>>,
    pub extended: Vec<Node<And<'src>>>,
}

/// Operands of `&&`.
#[cycle(tree)]
#[derive(PartialEq, Drop)]
pub struct And<'src> {
    pub initial: Node<Relation<'src>>,
    pub extended: Vec<Node<Relation<'src>>>,
}

/// One operand; or two with a comparison, `has`, `like` or `is` between them.
#[cycle(tree)]
#[derive(PartialEq, Drop)]
pub enum Relation<'src> {
    Common {
        initial: Node<Add<'src>>,
        extended: Option<(RelOp, Node<Add<'src>>)>,
    },
    Has {
        target: Node<Add<'src>>,
        field: Node<Add<'src>>,
    },
    Like {
        target: Node<Add<'src>>,
        pattern: Node<Add<'src>>,
    },
    IsIn {
        target: Node<Add<'src>>,
        entity_type: Node<Name<'src>>,
        in_entity: Option<Node<Add<'src>>>,
    },
}

/// Operands of `+` and `-`.
#[cycle(tree)]
#[derive(PartialEq, Drop)]
pub struct Add<'src> {
    pub initial: Node<Mult<'src>>,
    pub extended: Vec<(AddOp, Node<Mult<'src>>)>,
}

/// Operands of `*`.
#[cycle(tree)]
#[derive(PartialEq, Drop)]
pub struct Mult<'src> {
    pub initial: Node<Unary<'src>>,
    pub extended: Vec<(MultOp, Node<Unary<'src>>)>,
}

/// A member after its signs.
#[cycle(tree)]
#[derive(PartialEq, Drop)]
pub struct Unary<'src> {
    pub op: Option<NegOp>,
    pub item: Node<Member<'src>>,
}

/// A primary and what is accessed in it. A call of a path is a name whose first access is the call.
#[cycle(tree)]
#[derive(PartialEq, Drop)]
pub struct Member<'src> {
    pub item: Node<Primary<'src>>,
    pub access: Vec<Node<MemAccess<'src>>>,
}

/// `.field`, `(arguments)` or `["index"]`.
#[cycle(tree)]
#[derive(PartialEq, Drop)]
pub enum MemAccess<'src> {
    Field(Node<Ident<'src>>),
    Call(Vec<Node<Expr<'src>>>),
    Index(Node<Str<'src>>),
}

/// What members and operators are built from.
#[cycle(tree)]
#[derive(PartialEq, Drop)]
pub enum Primary<'src> {
    Literal(Node<Literal<'src>>),
    Ref(Node<Ref<'src>>),
    Name(Node<Name<'src>>),
    Slot(Node<Slot>),
    Expr(Box<Node<Expr<'src>>>),
    EList(Vec<Node<Expr<'src>>>),
    RInits(Vec<Node<RecInit<'src>>>),
}

/// A key of a record, a name of one identifier or a string, and its value.
#[cycle(tree)]
#[derive(PartialEq, Drop)]
pub struct RecInit<'src> {
    pub key: Node<Primary<'src>>,
    pub value: Node<Expr<'src>>,
}

/// `Num` holds the digits without leading zeros, `Str` the string with its quotes.
#[derive(PartialEq, Drop)]
pub enum Literal<'src> {
    True,
    False,
    Num(&'src str),
    Str(&'src str),
}

/// A string with its quotes, as it is in the text.
#[derive(PartialEq, Drop)]
pub struct Str<'src>(pub &'src str);

/// A word.
#[derive(PartialEq, Drop)]
pub struct Ident<'src>(pub &'src str);

/// Words joined by `::`; `name` is the last of them.
#[derive(PartialEq, Drop)]
pub struct Name<'src> {
    pub path: Vec<Node<Ident<'src>>>,
    pub name: Node<Ident<'src>>,
}

/// An entity: its type, `::`, and its name in quotes.
#[derive(PartialEq, Drop)]
pub struct Ref<'src> {
    pub path: Node<Name<'src>>,
    pub eid: Node<Str<'src>>,
}

/// `?principal` or `?resource`.
#[derive(Clone, Copy, PartialEq, Eq)]
pub enum Slot {
    Principal,
    Resource,
}

/// `<`, `<=`, `>`, `>=`, `!=`, `==` or `in`.
#[derive(Clone, Copy, PartialEq, Eq)]
pub enum RelOp {
    Less,
    LessEq,
    Greater,
    GreaterEq,
    NotEq,
    Eq,
    In,
}

/// `+` or `-`.
#[derive(Clone, Copy, PartialEq, Eq)]
pub enum AddOp {
    Plus,
    Minus,
}

/// `*`.
#[derive(Clone, Copy, PartialEq, Eq)]
pub enum MultOp {
    Times,
}

/// How many `!` or `-` precede a member, one to four.
#[derive(Clone, Copy, PartialEq, Eq)]
pub enum NegOp {
    Bang(u8),
    Dash(u8),
}

/// Whether the policies are equal without spans.
pub fn same_tree<'src>(a: &Policies<'src>, b: &Policies<'src>) -> bool
    ensures { IsTrue result ↔ SameTree a.now b.now }
{
    same_tree_is_by_fields();
    a == b
}

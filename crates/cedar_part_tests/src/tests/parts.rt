//! The documents of parts, each rendered by itself.
use super::*;
use cedar_policy_formatter::Context;
use cedar_policy_formatter::cst::{
    Add, Expr, Ident, Mult, Name, Node, Or, Policy, Primary, Relation,
};
use cedar_policy_formatter::doc::Doc;
use cedar_policy_formatter::layout::{Document, render};
use cedar_policy_formatter::lexer::{drop_trailing_commas, get_token_stream};
use cedar_policy_formatter::token::{Span, WrappedToken};
use cedar_policy_formatter::utils::in_order;

// The text's tokens without trailing commas.
fn tokens_of<'a>(rt: &impl Abort, alloc: Global, text: &'a str) -> Vec<WrappedToken<'a>> {
    let stream = get_token_stream(alloc, text).expect(rt, text);
    let (mut tokens, _) = stream.expect(rt, text);
    drop_trailing_commas(alloc, &mut tokens).expect(rt, text);
    tokens
}

fn only<'a, T>(rt: &impl Abort, items: &'a [T]) -> &'a T {
    assert_eq!(rt; items.len(), 1);
    items.first().expect(rt, "an item")
}

fn expect_document(
    rt: &impl Abort,
    alloc: Global,
    doc: Option<Document<'_>>,
    width: usize,
    want: &str,
    name: &str,
) {
    let mut out = String::new(alloc);
    let doc = doc.expect(rt, name);
    render(alloc, &doc, width, &mut out).expect(rt, name);
    expect_text(rt, out.as_str(), want, name);
}

// The text of a policy with one condition, and the layout of its body.
static BODIES: [Row; 21] = [
    Row {
        name: "sum and product",
        text: "permit(principal,action,resource)when{1+2*3};",
        layout: "1 + 2 * 3",
        ..ROW
    },
    Row {
        name: "sum one wider than the width",
        text: "permit(principal,action,resource)when{1+2*3};",
        layout: r#"1 +
2 * 3"#,
        width: 5,
        ..ROW
    },
    Row {
        name: "product one wider than the width",
        text: "permit(principal,action,resource)when{1+2*3};",
        layout: r#"1 +
2 *
3"#,
        width: 4,
        ..ROW
    },
    Row {
        name: "list one wider than the width",
        text: "permit(principal,action,resource)when{[1,2]};",
        layout: r#"[1,
 2]"#,
        width: 5,
        ..ROW
    },
    Row {
        name: "chain of accesses as wide as the width",
        text: "permit(principal,action,resource)when{!!context.b(1).c};",
        layout: "!!context.b(1).c",
        width: 16,
        ..ROW
    },
    Row {
        name: "chain of accesses one wider than the width",
        text: "permit(principal,action,resource)when{!!context.b(1).c};",
        layout: r#"!!context.b(
    1
  )
  .c"#,
        width: 15,
        ..ROW
    },
    Row {
        name: "empty record",
        text: "permit(principal,action,resource)when{{}};",
        layout: "{}",
        ..ROW
    },
    Row {
        name: "record as wide as the width",
        text: "permit(principal,action,resource)when{{a:1}};",
        layout: "{ a: 1 }",
        width: 8,
        ..ROW
    },
    Row {
        name: "record one wider than the width",
        text: "permit(principal,action,resource)when{{a:1}};",
        layout: r#"{
  a: 1
  }"#,
        width: 7,
        ..ROW
    },
    Row {
        name: "if as wide as the width",
        text: "permit(principal,action,resource)when{if true then 1 else 2};",
        layout: "if true then 1 else 2",
        width: 21,
        ..ROW
    },
    Row {
        name: "comment in brackets",
        text: r#"permit(principal,action,resource)when{(true // c
)};"#,
        layout: r#"(true // c
 )"#,
        ..ROW
    },
    Row {
        name: "number with zeros in front",
        text: "permit(principal,action,resource)when{007};",
        layout: "7",
        ..ROW
    },
    Row {
        name: "number of zeros",
        text: "permit(principal,action,resource)when{000};",
        layout: "0",
        ..ROW
    },
    Row {
        name: "empty list",
        text: "permit(principal,action,resource)when{[]};",
        layout: "[]",
        ..ROW
    },
    Row {
        name: "call without arguments",
        text: "permit(principal,action,resource)when{f()};",
        layout: "f()",
        ..ROW
    },
    Row {
        name: "comments between two signs",
        text: r#"permit(principal,action,resource)when{! // a
// b
!true};"#,
        layout: r#"! // a

// b
!true"#,
        ..ROW
    },
    Row {
        name: "comparisons and or",
        text: "permit(principal,action,resource)when{1<=2||1>=2||1!=2};",
        layout: r#"1 <= 2 ||
1 >= 2 ||
1 != 2"#,
        ..ROW
    },
    Row {
        name: "difference",
        text: "permit(principal,action,resource)when{1-2};",
        layout: "1 - 2",
        ..ROW
    },
    Row {
        name: "indexes and a field",
        text: r#"permit(principal,action,resource)when{context["a"]["b"].c};"#,
        layout: r#"context["a"]["b"].c"#,
        ..ROW
    },
    Row {
        name: "like",
        text: r#"permit(principal,action,resource)when{context like "a*"};"#,
        layout: r#"context like "a*""#,
        ..ROW
    },
    Row {
        name: "has before a string",
        text: r#"permit(principal,action,resource)when{context has "a"};"#,
        layout: r#"context has "a""#,
        ..ROW
    },
];

fn expect_body(rt: &impl Abort, alloc: Global, row: &Row) {
    let tree = parse_policies(alloc, row.text).expect(rt, row.name);
    let config = Config {
        line_width: row.width,
        indent_width: row.indent,
    };
    let mut context = Context {
        config: &config,
        tokens: tokens_of(rt, alloc, row.text),
    };
    assert!(rt; in_order(&context.tokens));
    let policy = only(rt, &tree.policies);
    let cond = only(rt, &policy.inner.conds);
    let doc = cond.inner.expr.to_doc(alloc, &mut context);
    let doc = doc.expect(rt, row.name);
    expect_document(rt, alloc, doc, row.width, row.layout, row.name);
}

#[test]
fn bodies(rt: HostRuntime) {
    for row in &BODIES {
        expect_body(&rt, rt.alloc(), row);
    }
}

// A text, a width, and what its policies, taken in order, are rendered to: not cleaned yet. No comment is left.
struct Rendering {
    name: &'static str,
    text: &'static str,
    width: usize,
    layouts: &'static [&'static str],
}

static POLICIES: [Rendering; 16] = [
    Rendering {
        name: "principal that equals an entity",
        text: r#"permit(principal == User::"a",action,resource);"#,
        width: 80,
        layouts: &[
            r#"permit (
  principal == User::"a",
  action,
  resource
);"#,
        ],
    },
    Rendering {
        name: "principal that equals a slot",
        text: "permit(principal == ?principal, action, resource);",
        width: 80,
        layouts: &[
            r#"permit (
  principal == ?principal,
  action,
  resource
);"#,
        ],
    },
    Rendering {
        name: "annotation",
        text: r#"@id("x")permit(principal,action,resource);"#,
        width: 80,
        layouts: &[
            r#"@id("x")
permit (principal, action, resource);"#,
        ],
    },
    Rendering {
        name: "comment after the comma of a variable",
        text: r#"permit(principal, // p
action,resource);"#,
        width: 80,
        layouts: &[
            r#"permit (principal, // p
  action, resource);"#,
        ],
    },
    Rendering {
        name: "comment before an operator",
        text: r#"permit(principal,action,resource)when{"a"
// c
== "b"};"#,
        width: 80,
        layouts: &[
            "permit (principal, action, resource)\nwhen\n{\n  \"a\" \n  // c\n  == \"b\"\n};",
        ],
    },
    Rendering {
        name: "string with an empty line and slashes",
        text: r#"permit(principal,action,resource)when{"a

// b"};"#,
        width: 80,
        layouts: &[
            r#"permit (principal, action, resource)
when { "a

// b" };"#,
        ],
    },
    Rendering {
        name: "number with zeros in front",
        text: "permit(principal,action,resource)when{007==7};",
        width: 80,
        layouts: &[
            r#"permit (principal, action, resource)
when { 7 == 7 };"#,
        ],
    },
    Rendering {
        name: "has, tags and a call",
        text: r#"permit(principal,action,resource)unless{principal has a.b&&resource.tags.contains("x")};"#,
        width: 80,
        layouts: &[
            r#"permit (principal, action, resource)
unless { principal has a.b && resource.tags.contains("x") };"#,
        ],
    },
    Rendering {
        name: "record, list and is in",
        text: r#"permit(principal,action,resource)when{{a:1,"b":[2,-3]}==context&&principal is A::B in A::"c"};"#,
        width: 80,
        layouts: &[
            r#"permit (principal, action, resource)
when { { a: 1, "b": [2, -3] } == context && principal is A::B in A::"c" };"#,
        ],
    },
    Rendering {
        name: "if broken over lines",
        text: r#"permit(principal,action,resource)when{if a::"x"==principal then true else false};"#,
        width: 30,
        layouts: &[
            r#"permit
(principal, action, resource)
when
{
  if
    a::"x" == principal
  then
    true
  else
    false
};"#,
        ],
    },
    Rendering {
        name: "list of actions one wider than the width",
        text: r#"permit(principal,action in [A::"x",A::"y"],resource);"#,
        width: 20,
        layouts: &[
            r#"permit (
  principal,
  action in
    [A::"x",
     A::"y"],
  resource
);"#,
        ],
    },
    Rendering {
        name: "list of actions as wide as the width",
        text: r#"permit(principal,action in [A::"x",A::"y"],resource);"#,
        width: 21,
        layouts: &[
            r#"permit (
  principal,
  action in
    [A::"x", A::"y"],
  resource
);"#,
        ],
    },
    Rendering {
        name: "type and slot one wider than the width",
        text: "permit(principal is A in ?principal,action,resource);",
        width: 18,
        layouts: &[
            r#"permit (
  principal is A
  in
    ?principal,
  action,
  resource
);"#,
        ],
    },
    Rendering {
        name: "type and slot as wide as the width",
        text: "permit(principal is A in ?principal,action,resource);",
        width: 19,
        layouts: &[
            r#"permit (
  principal is A in
    ?principal,
  action,
  resource
);"#,
        ],
    },
    Rendering {
        name: "comments in an argument",
        text: r#"permit(principal,action,resource)when{f(1 // x
// y
)};"#,
        width: 80,
        layouts: &[
            "permit (principal, action, resource)\nwhen\n{\n  f(\n      1 // x\n      \n    \n    // y\n    )\n};",
        ],
    },
    Rendering {
        name: "trailing, leading and closing comments",
        text: r#"permit(principal,action,resource); // t
// l
permit(principal,action,resource);
// e"#,
        width: 80,
        layouts: &[
            r#"permit (principal, action, resource); // t
"#,
            r#"
// l
permit (principal, action, resource);"#,
        ],
    },
];

fn expect_policies(rt: &impl Abort, alloc: Global, row: &Rendering) {
    let tree = parse_policies(alloc, row.text).expect(rt, row.name);
    let config = Config::default();
    let mut context = Context {
        config: &config,
        tokens: tokens_of(rt, alloc, row.text),
    };
    assert_eq!(rt; tree.policies.len(), row.layouts.len(), "{}", row.name);
    let mut rest = row.layouts.iter();
    for policy in &tree.policies {
        let want = rest.next().expect(rt, row.name);
        expect_policy(rt, alloc, policy, &mut context, row.width, want, row.name);
    }
    expect_no_comments(rt, &context.tokens, row.name);
}

fn expect_policy<'a>(
    rt: &impl Abort,
    alloc: Global,
    policy: &Node<Policy<'a>>,
    context: &mut Context<'_, 'a>,
    width: usize,
    want: &str,
    name: &str,
) {
    assert!(rt; in_order(&context.tokens));
    let doc = policy.to_doc(alloc, context).expect(rt, name);
    expect_document(rt, alloc, doc, width, want, name);
}

fn expect_no_comments(rt: &impl Abort, tokens: &[WrappedToken<'_>], name: &str) {
    for token in tokens {
        let comment = &token.comment;
        let is_bare = comment.leading_comment().is_empty() && comment.trailing_comment().is_empty();
        assert!(rt; is_bare, "{name}: {token}");
    }
}

#[test]
fn policies(rt: HostRuntime) {
    for row in &POLICIES {
        expect_policies(&rt, rt.alloc(), row);
    }
}

// The type of the first policy's principal.
fn expect_type(rt: &impl Abort, alloc: Global, text: &str, want: &str) {
    let tree = parse_policies(alloc, text).expect(rt, text);
    let config = Config::default();
    let mut context = Context {
        config: &config,
        tokens: tokens_of(rt, alloc, text),
    };
    assert!(rt; in_order(&context.tokens));
    let variable = &only(rt, &tree.policies).inner.variables.0;
    let name = variable.inner.entity_type.as_ref().expect(rt, text);
    let doc = name.to_doc(alloc, &mut context).expect(rt, text);
    expect_document(rt, alloc, doc, 80, want, text);
}

#[test]
fn a_type_with_a_comment(rt: HostRuntime) {
    let text = r#"permit(principal is A // x
::B,action,resource);"#;
    let want = r#"A // x
::B"#;
    expect_type(&rt, rt.alloc(), text, want);
}

// A text, whether the context has its tokens, and each part of a type that has a document with `none`, or what it is
// rendered to by itself. Of a chain of levels the first operand is visited, and the primaries of the others.
struct Visit {
    name: &'static str,
    text: &'static str,
    has_tokens: bool,
    parts: &'static [(&'static str, &'static str)],
}

static NODES: [Visit; 4] = [
    Visit {
        name: "each part",
        text: r#"@id("x")permit(principal==?principal,action,resource)when{!context.b(1)["k"]*2+007=={a:A::B::"u"}&&true||false};"#,
        has_tokens: true,
        parts: &[
            (
                "Node<Policy>",
                r#"@id("x")
permit (
  principal == ?principal,
  action,
  resource
)
when { !context.b(1)["k"] * 2 + 7 == { a: A::B::"u" } && true || false };"#,
            ),
            (
                "Node<Annotation>",
                r#"@id("x")
"#,
            ),
            ("Node<Ident>", "id"),
            ("Ident", "id"),
            ("Node<Str>", r#""x""#),
            ("Node<VariableDef>", "principal == ?principal"),
            ("Node<Primary>", "?principal"),
            ("Node<Slot>", "?principal"),
            (
                "Node<Cond>",
                r#"when { !context.b(1)["k"] * 2 + 7 == { a: A::B::"u" } && true || false }"#,
            ),
            (
                "Node<Expr>",
                r#"!context.b(1)["k"] * 2 + 7 == { a: A::B::"u" } &&
true ||
false"#,
            ),
            (
                "Node<Or>",
                r#"!context.b(1)["k"] * 2 + 7 == { a: A::B::"u" } &&
true ||
false"#,
            ),
            (
                "Node<And>",
                r#"!context.b(1)["k"] * 2 + 7 == { a: A::B::"u" } &&
true"#,
            ),
            (
                "Node<Relation>",
                r#"!context.b(1)["k"] * 2 + 7 == { a: A::B::"u" }"#,
            ),
            ("Node<Add>", r#"!context.b(1)["k"] * 2 + 7"#),
            ("AddOp", "+"),
            ("Node<Primary>", "7"),
            ("Node<Literal>", "7"),
            ("Node<Mult>", r#"!context.b(1)["k"] * 2"#),
            ("MultOp", "*"),
            ("Node<Unary>", r#"!context.b(1)["k"]"#),
            ("Member", r#"context.b(1)["k"]"#),
            ("Node<MemAccess>", ".b"),
            (
                "Node<MemAccess>",
                r#"(
  1
)"#,
            ),
            ("Node<MemAccess>", r#"["k"]"#),
            ("Node<Primary>", "context"),
            ("Node<Name>", "context"),
            ("Node<Primary>", r#"{ a: A::B::"u" }"#),
            ("Node<RecInit>", r#"a: A::B::"u""#),
        ],
    },
    Visit {
        name: "each part with comments",
        text: r#"@ // a
// b
id // c
( // d
// e
"x" // f
)permit(principal== // g
// h
?principal // i
,action,resource)when{ // j
// k
007 // l
==A::B // m
:: // n
// o
"u" // q
};"#,
        has_tokens: true,
        parts: &[
            (
                "Node<Policy>",
                "@ // a\n\n// b\nid // c\n( // d\n\n// e\n\"x\" // f\n)\npermit (\n  principal\n  == // g\n  \n    \n    // h\n    ?principal // i\n    ,\n  action,\n  resource\n)\nwhen\n{ // j\n  \n  // k\n  7 // l\n   == A::B // m\n  :: // n\n  \n  // o\n  \"u\" // q\n  \n};",
            ),
            (
                "Node<Annotation>",
                r#"@ // a

// b
id // c
( // d

// e
"x" // f
)
"#,
            ),
            (
                "Node<Ident>",
                r#"
// b
id // c
"#,
            ),
            ("Ident", "id"),
            (
                "Node<Str>",
                r#"
// e
"x" // f
"#,
            ),
            (
                "Node<VariableDef>",
                "principal\n== // g\n\n  \n  // h\n  ?principal // i\n  ",
            ),
            (
                "Node<Primary>",
                r#"
// h
?principal // i
"#,
            ),
            (
                "Node<Slot>",
                r#"
// h
?principal // i
"#,
            ),
            (
                "Node<Cond>",
                "when\n{ // j\n  \n  // k\n  7 // l\n   == A::B // m\n  :: // n\n  \n  // o\n  \"u\" // q\n  \n}",
            ),
            (
                "Node<Expr>",
                r#"
// k
7 // l
 == A::B // m
:: // n

// o
"u" // q
"#,
            ),
            (
                "Node<Or>",
                r#"
// k
7 // l
 == A::B // m
:: // n

// o
"u" // q
"#,
            ),
            (
                "Node<And>",
                r#"
// k
7 // l
 == A::B // m
:: // n

// o
"u" // q
"#,
            ),
            (
                "Node<Relation>",
                r#"
// k
7 // l
 == A::B // m
:: // n

// o
"u" // q
"#,
            ),
            (
                "Node<Add>",
                r#"
// k
7 // l
"#,
            ),
            (
                "Node<Mult>",
                r#"
// k
7 // l
"#,
            ),
            (
                "Node<Unary>",
                r#"
// k
7 // l
"#,
            ),
            (
                "Member",
                r#"
// k
7 // l
"#,
            ),
            (
                "Node<Primary>",
                r#"
// k
7 // l
"#,
            ),
            (
                "Node<Literal>",
                r#"
// k
7 // l
"#,
            ),
            (
                "Node<Primary>",
                r#"A::B // m
:: // n

// o
"u" // q
"#,
            ),
            (
                "Node<Ref>",
                r#"A::B // m
:: // n

// o
"u" // q
"#,
            ),
            (
                "Node<Name>",
                r#"A::B // m
"#,
            ),
            (
                "Node<Str>",
                r#"
// o
"u" // q
"#,
            ),
        ],
    },
    Visit {
        name: "each part without the tokens",
        text: r#"@id("x")permit(principal==?principal,action,resource)when{!context.b(1)["k"]*2+007=={a:A::B::"u"}&&true||false};"#,
        has_tokens: false,
        parts: &[
            ("Node<Policy>", "none"),
            ("Node<Annotation>", "none"),
            ("Node<Ident>", "none"),
            ("Ident", "id"),
            ("Node<Str>", "none"),
            ("Node<VariableDef>", "none"),
            ("Node<Primary>", "none"),
            ("Node<Slot>", "none"),
            ("Node<Cond>", "none"),
            ("Node<Expr>", "none"),
            ("Node<Or>", "none"),
            ("Node<And>", "none"),
            ("Node<Relation>", "none"),
            ("Node<Add>", "none"),
            ("AddOp", "+"),
            ("Node<Primary>", "none"),
            ("Node<Literal>", "none"),
            ("Node<Mult>", "none"),
            ("MultOp", "*"),
            ("Node<Unary>", "none"),
            ("Member", "none"),
            ("Node<MemAccess>", "none"),
            ("Node<MemAccess>", "none"),
            ("Node<MemAccess>", "none"),
            ("Node<Primary>", "none"),
            ("Node<Name>", "none"),
            ("Node<Primary>", "none"),
            ("Node<RecInit>", "none"),
        ],
    },
    Visit {
        name: "each part with comments, without the tokens",
        text: r#"@ // a
// b
id // c
( // d
// e
"x" // f
)permit(principal== // g
// h
?principal // i
,action,resource)when{ // j
// k
007 // l
==A::B // m
:: // n
// o
"u" // q
};"#,
        has_tokens: false,
        parts: &[
            ("Node<Policy>", "none"),
            ("Node<Annotation>", "none"),
            ("Node<Ident>", "none"),
            ("Ident", "id"),
            ("Node<Str>", "none"),
            ("Node<VariableDef>", "none"),
            ("Node<Primary>", "none"),
            ("Node<Slot>", "none"),
            ("Node<Cond>", "none"),
            ("Node<Expr>", "none"),
            ("Node<Or>", "none"),
            ("Node<And>", "none"),
            ("Node<Relation>", "none"),
            ("Node<Add>", "none"),
            ("Node<Mult>", "none"),
            ("Node<Unary>", "none"),
            ("Member", "none"),
            ("Node<Primary>", "none"),
            ("Node<Literal>", "none"),
            ("Node<Primary>", "none"),
            ("Node<Ref>", "none"),
            ("Node<Name>", "none"),
            ("Node<Str>", "none"),
        ],
    },
];

// The documents of a text's parts, as the rows have them, each made with the comments of the text.
#[derive(Drop)]
struct Printed<'a> {
    alloc: Global,
    text: &'a str,
    has_tokens: bool,
    out: String,
}

impl<'a> Printed<'a> {
    fn add<D: Doc<'a>>(&mut self, rt: &impl Abort, name: &str, part: &D) {
        let config = Config::default();
        let tokens = if self.has_tokens {
            tokens_of(rt, self.alloc, self.text)
        } else {
            Vec::new(self.alloc)
        };
        let mut context = Context {
            config: &config,
            tokens,
        };
        assert!(rt; in_order(&context.tokens));
        let doc = part.to_doc(self.alloc, &mut context).expect(rt, name);
        append_row(
            rt,
            &mut self.out,
            name,
            rendered(rt, self.alloc, doc).as_str(),
        );
    }

    fn add_policy(&mut self, rt: &impl Abort, policy: &Node<Policy<'a>>) {
        self.add(rt, "Node<Policy>", policy);
        for annotation in &policy.inner.annotations {
            self.add(rt, "Node<Annotation>", annotation);
            self.add(rt, "Node<Ident>", &annotation.inner.key);
            self.add(rt, "Ident", &annotation.inner.key.inner);
            if let Some(value) = &annotation.inner.value {
                self.add(rt, "Node<Str>", value);
            }
        }
        self.add(rt, "Node<VariableDef>", &policy.inner.variables.0);
        if let Some((_, operand)) = &policy.inner.variables.0.inner.ineq {
            self.add_primary(rt, primary_of(operand));
        }
        for cond in &policy.inner.conds {
            self.add(rt, "Node<Cond>", cond);
            self.add_expr(rt, &cond.inner.expr);
        }
    }

    fn add_expr(&mut self, rt: &impl Abort, expr: &Node<Expr<'a>>) {
        self.add(rt, "Node<Expr>", expr);
        if let Expr::Or(or) = &expr.inner {
            self.add_or(rt, or);
        }
    }

    fn add_or(&mut self, rt: &impl Abort, or: &Node<Or<'a>>) {
        let and = &or.inner.initial;
        let relation = &and.inner.initial;
        self.add(rt, "Node<Or>", or);
        self.add(rt, "Node<And>", and);
        self.add(rt, "Node<Relation>", relation);
        if let Relation::Common { initial, extended } = &relation.inner {
            self.add_sum(rt, initial);
            if let Some((_, operand)) = extended {
                self.add_primary(rt, primary_of(operand));
            }
        }
    }

    fn add_sum(&mut self, rt: &impl Abort, add: &Node<Add<'a>>) {
        self.add(rt, "Node<Add>", add);
        for (op, operand) in &add.inner.extended {
            self.add(rt, "AddOp", op);
            self.add_primary(rt, &operand.inner.initial.inner.item.inner.item);
        }
        self.add_product(rt, &add.inner.initial);
    }

    fn add_product(&mut self, rt: &impl Abort, mult: &Node<Mult<'a>>) {
        self.add(rt, "Node<Mult>", mult);
        for (op, _) in &mult.inner.extended {
            self.add(rt, "MultOp", op);
        }
        let unary = &mult.inner.initial;
        let member = &unary.inner.item.inner;
        self.add(rt, "Node<Unary>", unary);
        self.add(rt, "Member", member);
        for access in &member.access {
            self.add(rt, "Node<MemAccess>", access);
        }
        self.add_primary(rt, &member.item);
    }

    fn add_primary(&mut self, rt: &impl Abort, primary: &Node<Primary<'a>>) {
        self.add(rt, "Node<Primary>", primary);
        match &primary.inner {
            Primary::Literal(literal) => self.add(rt, "Node<Literal>", literal),
            Primary::Name(name) => self.add(rt, "Node<Name>", name),
            Primary::Slot(slot) => self.add(rt, "Node<Slot>", slot),
            Primary::Ref(entity) => {
                self.add(rt, "Node<Ref>", entity);
                self.add(rt, "Node<Name>", &entity.inner.path);
                self.add(rt, "Node<Str>", &entity.inner.eid);
            }
            Primary::RInits(inits) => {
                for init in inits {
                    self.add(rt, "Node<RecInit>", init);
                }
            }
            _ => {}
        }
    }
}

fn primary_of<'b, 'a>(add: &'b Node<Add<'a>>) -> &'b Node<Primary<'a>> {
    &add.inner.initial.inner.initial.inner.item.inner.item
}

fn rendered(rt: &impl Abort, alloc: Global, doc: Option<Document<'_>>) -> String {
    let mut out = String::new(alloc);
    match doc {
        Some(doc) => render(alloc, &doc, 80, &mut out).expect(rt, "memory"),
        None => out.push_str("none").expect(rt, "memory"),
    }
    out
}

fn append_row(rt: &impl Abort, out: &mut String, name: &str, rendered: &str) {
    write!(out, "{name}: {rendered};\n").expect(rt, "memory");
}

fn expect_parts(rt: &impl Abort, alloc: Global, row: &Visit) {
    let tree = parse_policies(alloc, row.text).expect(rt, row.name);
    let mut got = Printed {
        alloc,
        text: row.text,
        has_tokens: row.has_tokens,
        out: String::new(alloc),
    };
    got.add_policy(rt, only(rt, &tree.policies));
    let mut want = String::new(alloc);
    for (part, rendered) in row.parts {
        append_row(rt, &mut want, part, rendered);
    }
    expect_text(rt, got.out.as_str(), want.as_str(), row.name);
}

#[test]
fn nodes(rt: HostRuntime) {
    for row in &NODES {
        expect_parts(&rt, rt.alloc(), row);
    }
}

// A text of two words with `::` between, and what a path of these words, built by hand, is rendered to.
struct Path {
    name: &'static str,
    text: &'static str,
    first: Word,
    last: Word,
    layout: &'static str,
}

struct Word {
    text: &'static str,
    start: usize,
}

static PATHS: [Path; 2] = [
    Path {
        name: "a path of the grammar",
        text: "a::b",
        first: Word {
            text: "a",
            start: 0,
        },
        last: Word {
            text: "b",
            start: 3,
        },
        layout: "a::b",
    },
    Path {
        name: "a keyword in a path",
        text: "in::b",
        first: Word {
            text: "in",
            start: 0,
        },
        last: Word {
            text: "b",
            start: 4,
        },
        layout: "in :: b",
    },
];

fn node_of(word: &Word) -> Node<Ident<'static>> {
    let end = word.start.saturating_add(word.text.len());
    Node {
        inner: Ident(word.text),
        span: Span {
            start: word.start,
            end,
        },
    }
}

fn expect_path(rt: &impl Abort, alloc: Global, row: &Path) {
    let mut path = Vec::new(alloc);
    path.push(node_of(&row.first)).expect(rt, row.name);
    let name = node_of(&row.last);
    let span = Span {
        start: row.first.start,
        end: name.span.end,
    };
    let inner = Name { path, name };
    let node = Node { inner, span };
    let config = Config::default();
    let mut context = Context {
        config: &config,
        tokens: tokens_of(rt, alloc, row.text),
    };
    assert!(rt; in_order(&context.tokens));
    let doc = node.to_doc(alloc, &mut context).expect(rt, row.name);
    expect_document(rt, alloc, doc, 80, row.layout, row.name);
}

#[test]
fn paths_built_by_hand(rt: HostRuntime) {
    for row in &PATHS {
        expect_path(&rt, rt.alloc(), row);
    }
}

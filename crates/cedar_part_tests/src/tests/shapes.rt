//! Trees printed with their spans. A level of one operand prints nothing of its own, but `!` where its span isn't the operand's.
use super::*;
use cedar_policy_formatter::cst::*;
use cedar_policy_formatter::token::Span;

// Appends the text. Out of memory shows as a wrong tree.
fn put(out: &mut String, text: &str) {
    let _ = out.push_str(text);
}

fn mark(out: &mut String, text: &str, span: Span) {
    let start = span.start;
    let end = span.end;
    let _ = write!(out, "{text}@{start}-{end}");
}

fn leaf(out: &mut String, before: &str, text: &str, span: Span) {
    put(out, before);
    mark(out, text, span);
}

// What stands before a level's first operand: `(` where there are more.
fn open(out: &mut String, before: &str, is_alone: bool, span: Span, inner: Span) {
    put(out, before);
    if !is_alone {
        put(out, "(");
    } else if span != inner {
        put(out, "!");
    }
}

fn close(out: &mut String, is_alone: bool, span: Span) {
    if !is_alone {
        mark(out, ")", span);
    }
}

fn operator(op: RelOp) -> &'static str {
    match op {
        RelOp::Less => " Less ",
        RelOp::LessEq => " LessEq ",
        RelOp::Greater => " Greater ",
        RelOp::GreaterEq => " GreaterEq ",
        RelOp::NotEq => " NotEq ",
        RelOp::Eq => " Eq ",
        RelOp::In => " In ",
    }
}

fn show_signs(out: &mut String, op: Option<NegOp>) {
    let _ = match op {
        None => Ok(()),
        Some(NegOp::Bang(count)) => write!(out, "Bang({count}) "),
        Some(NegOp::Dash(count)) => write!(out, "Dash({count}) "),
    };
}

fn show_policy(out: &mut String, node: &Node<Policy<'_>>) {
    for annotation in &node.inner.annotations {
        show_annotation(out, annotation);
    }
    let effect = &node.inner.effect;
    leaf(out, "", effect.inner.0, effect.span);
    show_variable(out, &node.inner.variables.0);
    show_variable(out, &node.inner.variables.1);
    show_variable(out, &node.inner.variables.2);
    for cond in &node.inner.conds {
        leaf(out, " ", cond.inner.cond.inner.0, cond.inner.cond.span);
        show_expr(out, "{", &cond.inner.expr);
        mark(out, "}", cond.span);
    }
    mark(out, "", node.span);
}

fn show_annotation(out: &mut String, node: &Node<Annotation<'_>>) {
    let key = &node.inner.key;
    leaf(out, "@", key.inner.0, key.span);
    if let Some(value) = &node.inner.value {
        leaf(out, "(", value.inner.0, value.span);
        put(out, ")");
    }
    mark(out, "", node.span);
    put(out, " ");
}

fn show_variable(out: &mut String, node: &Node<VariableDef<'_>>) {
    let variable = &node.inner.variable;
    leaf(out, " (", variable.inner.0, variable.span);
    if let Some(name) = &node.inner.entity_type {
        show_name(out, " is ", name);
    }
    if let Some((op, operand)) = &node.inner.ineq {
        show_add(out, operator(*op), operand);
    }
    mark(out, ")", node.span);
}

fn show_name(out: &mut String, before: &str, node: &Node<Name<'_>>) {
    put(out, before);
    for ident in &node.inner.path {
        put(out, ident.inner.0);
        put(out, "::");
    }
    mark(out, node.inner.name.inner.0, node.span);
}

fn show_literal(out: &mut String, node: &Node<Literal<'_>>) {
    let text = match &node.inner {
        Literal::True => "true",
        Literal::False => "false",
        Literal::Num(text) | Literal::Str(text) => *text,
    };
    mark(out, text, node.span);
}

fn show_ref(out: &mut String, node: &Node<Ref<'_>>) {
    let eid = &node.inner.eid;
    show_name(out, "", &node.inner.path);
    leaf(out, "::", eid.inner.0, eid.span);
    mark(out, "", node.span);
}

fn show_slot(out: &mut String, node: &Node<Slot>) {
    let text = match node.inner {
        Slot::Principal => "?Principal",
        Slot::Resource => "?Resource",
    };
    mark(out, text, node.span);
}

// A primary with no expression in it.
fn show_leaf(out: &mut String, node: &Node<Primary<'_>>) {
    match &node.inner {
        Primary::Literal(literal) => {
            open(out, "", true, node.span, literal.span);
            show_literal(out, literal);
        }
        Primary::Ref(entity) => {
            open(out, "", true, node.span, entity.span);
            show_ref(out, entity);
        }
        Primary::Name(name) => {
            open(out, "", true, node.span, name.span);
            show_name(out, "", name);
        }
        Primary::Slot(slot) => {
            open(out, "", true, node.span, slot.span);
            show_slot(out, slot);
        }
        _ => put(out, "?"),
    }
}

#[cycle(show)]
fn show_expr(out: &mut String, before: &str, node: &Node<Expr<'_>>) {
    match &node.inner {
        Expr::If(test, yes, no) => {
            put(out, before);
            show_expr(out, "if(", test);
            show_expr(out, ",", yes);
            show_expr(out, ",", no);
            mark(out, ")", node.span)
        }
        Expr::Or(or) => {
            open(out, before, true, node.span, or.span);
            show_or(out, or)
        }
    }
}

#[cycle(show)]
fn show_or(out: &mut String, node: &Node<Or<'_>>) {
    let initial = &node.inner.initial;
    let is_alone = node.inner.extended.is_empty();
    open(out, "", is_alone, node.span, initial.span);
    show_and(out, "", initial);
    for operand in &node.inner.extended {
        show_and(out, " || ", operand);
    }
    close(out, is_alone, node.span);
}

#[cycle(show)]
fn show_and(out: &mut String, before: &str, node: &Node<And<'_>>) {
    let initial = &node.inner.initial;
    let is_alone = node.inner.extended.is_empty();
    open(out, before, is_alone, node.span, initial.span);
    show_relation(out, "<", initial);
    for operand in &node.inner.extended {
        show_relation(out, " && <", operand);
    }
    close(out, is_alone, node.span);
}

#[cycle(show)]
fn show_relation(out: &mut String, before: &str, node: &Node<Relation<'_>>) {
    match &node.inner {
        Relation::Common { initial, extended } => {
            show_add(out, before, initial);
            if let Some((op, operand)) = extended {
                show_add(out, operator(*op), operand);
            }
        }
        Relation::Has { target, field } => {
            show_add(out, before, target);
            show_add(out, " has ", field);
        }
        Relation::Like { target, pattern } => {
            show_add(out, before, target);
            show_add(out, " like ", pattern);
        }
        Relation::IsIn {
            target,
            entity_type,
            in_entity,
        } => {
            show_add(out, before, target);
            show_name(out, " is ", entity_type);
            if let Some(operand) = in_entity {
                show_add(out, " in ", operand);
            }
        }
    }
    mark(out, ">", node.span);
}

#[cycle(show)]
fn show_add(out: &mut String, before: &str, node: &Node<Add<'_>>) {
    let initial = &node.inner.initial;
    let is_alone = node.inner.extended.is_empty();
    open(out, before, is_alone, node.span, initial.span);
    show_mult(out, "", initial);
    for (op, operand) in &node.inner.extended {
        let sign = if *op == AddOp::Plus { " + " } else { " - " };
        show_mult(out, sign, operand);
    }
    close(out, is_alone, node.span);
}

#[cycle(show)]
fn show_mult(out: &mut String, before: &str, node: &Node<Mult<'_>>) {
    let initial = &node.inner.initial;
    let is_alone = node.inner.extended.is_empty();
    open(out, before, is_alone, node.span, initial.span);
    show_unary(out, "", initial);
    for (_, operand) in &node.inner.extended {
        show_unary(out, " * ", operand);
    }
    close(out, is_alone, node.span);
}

#[cycle(show)]
fn show_unary(out: &mut String, before: &str, node: &Node<Unary<'_>>) {
    let item = &node.inner.item;
    let is_alone = node.inner.op.is_none();
    open(out, before, is_alone, node.span, item.span);
    show_signs(out, node.inner.op);
    show_primary(out, &item.inner.item);
    for access in &item.inner.access {
        show_access(out, access);
    }
    if item.inner.access.is_empty() {
        open(out, "", true, item.span, item.inner.item.span);
    } else {
        mark(out, "", item.span);
    }
    close(out, is_alone, node.span);
}

#[cycle(show)]
fn show_access(out: &mut String, node: &Node<MemAccess<'_>>) {
    match &node.inner {
        MemAccess::Field(field) => leaf(out, " .", field.inner.0, field.span),
        MemAccess::Index(index) => leaf(out, " at ", index.inner.0, index.span),
        MemAccess::Call(arguments) => {
            put(out, " call");
            for argument in arguments {
                show_expr(out, " ", argument);
            }
        }
    }
    mark(out, "", node.span);
}

#[cycle(show)]
fn show_primary(out: &mut String, node: &Node<Primary<'_>>) {
    match &node.inner {
        Primary::Expr(expr) => {
            show_expr(out, "paren ", expr);
            mark(out, "", node.span);
        }
        Primary::EList(items) => {
            put(out, "list");
            for item in items {
                show_expr(out, " ", item);
            }
            mark(out, "", node.span);
        }
        Primary::RInits(inits) => {
            put(out, "record");
            for init in inits {
                put(out, " ");
                show_primary(out, &init.inner.key);
                show_expr(out, ":", &init.inner.value);
                mark(out, "", init.span);
            }
            mark(out, "", node.span);
        }
        _ => show_leaf(out, node),
    }
}

// A text, and its tree as it is printed.
struct Shape {
    name: &'static str,
    text: &'static str,
    tree: &'static str,
}

// The trees of the conditions alone.
static CONDITIONS: [Shape; 25] = [
    Shape {
        name: "number with zeros in front",
        text: "permit(principal,action,resource)when{007};",
        tree: "<7@38-41>@38-41",
    },
    Shape {
        name: "number of zeros",
        text: "permit(principal,action,resource)when{000};",
        tree: "<0@38-41>@38-41",
    },
    Shape {
        name: "sum and product",
        text: "permit(principal,action,resource)when{1+2*3};",
        tree: "<(1@38-39 + (2@40-41 * 3@42-43)@40-43)@38-43>@38-43",
    },
    Shape {
        name: "difference and sum",
        text: "permit(principal,action,resource)when{1-2+3};",
        tree: "<(1@38-39 - 2@40-41 + 3@42-43)@38-43>@38-43",
    },
    Shape {
        name: "number in brackets",
        text: "permit(principal,action,resource)when{ (1) };",
        tree: "<paren <1@40-41>@40-41@39-42>@39-42",
    },
    Shape {
        name: "two signs and a chain of accesses",
        text: "permit(principal,action,resource)when{!!context.b(1).c};",
        tree: "<(Bang(2) context@40-47 .b@48-49@47-49 call <1@50-51>@50-51@49-52 .c@53-54@52-54@40-54)@38-54>@38-54",
    },
    Shape {
        name: "minus",
        text: "permit(principal,action,resource)when{-1};",
        tree: "<(Dash(1) 1@39-40)@38-40>@38-40",
    },
    Shape {
        name: "or and and",
        text: "permit(principal,action,resource)when{1||2&&3||4};",
        tree: "(<1@38-39>@38-39 || (<2@41-42>@41-42 && <3@44-45>@44-45)@41-45 || <4@47-48>@47-48)@38-48",
    },
    Shape {
        name: "if then else",
        text: "permit(principal,action,resource)when{if 1 then 2 else 3};",
        tree: "if(<1@41-42>@41-42,<2@48-49>@48-49,<3@55-56>@55-56)@38-56",
    },
    Shape {
        name: "is in",
        text: r#"permit(principal,action,resource)when{1 is A::B in C::"d"};"#,
        tree: r#"<1@38-39 is A::B@43-47 in C@51-52::"d"@54-57@51-57>@38-57"#,
    },
    Shape {
        name: "is",
        text: "permit(principal,action,resource)when{1 is A};",
        tree: "<1@38-39 is A@43-44>@38-44",
    },
    Shape {
        name: "has a chain of fields",
        text: "permit(principal,action,resource)when{1 has a.b};",
        tree: "<1@38-39 has a@44-45 .b@46-47@45-47@44-47>@38-47",
    },
    Shape {
        name: "has before a string",
        text: r#"permit(principal,action,resource)when{1 has "a"};"#,
        tree: r#"<1@38-39 has "a"@44-47>@38-47"#,
    },
    Shape {
        name: "like",
        text: r#"permit(principal,action,resource)when{1 like "a"};"#,
        tree: r#"<1@38-39 like "a"@45-48>@38-48"#,
    },
    Shape {
        name: "less",
        text: "permit(principal,action,resource)when{1 < 2};",
        tree: "<1@38-39 Less 2@42-43>@38-43",
    },
    Shape {
        name: "less or equal",
        text: "permit(principal,action,resource)when{1 <= 2};",
        tree: "<1@38-39 LessEq 2@43-44>@38-44",
    },
    Shape {
        name: "greater",
        text: "permit(principal,action,resource)when{1 > 2};",
        tree: "<1@38-39 Greater 2@42-43>@38-43",
    },
    Shape {
        name: "greater or equal",
        text: "permit(principal,action,resource)when{1 >= 2};",
        tree: "<1@38-39 GreaterEq 2@43-44>@38-44",
    },
    Shape {
        name: "not equal",
        text: "permit(principal,action,resource)when{1 != 2};",
        tree: "<1@38-39 NotEq 2@43-44>@38-44",
    },
    Shape {
        name: "equal",
        text: "permit(principal,action,resource)when{1 == 2};",
        tree: "<1@38-39 Eq 2@43-44>@38-44",
    },
    Shape {
        name: "in",
        text: "permit(principal,action,resource)when{1 in 2};",
        tree: "<1@38-39 In 2@43-44>@38-44",
    },
    Shape {
        name: "index",
        text: r#"permit(principal,action,resource)when{context["k"]};"#,
        tree: r#"<context@38-45 at "k"@46-49@45-50@38-50>@38-50"#,
    },
    Shape {
        name: "call of a path",
        text: "permit(principal,action,resource)when{a::b()};",
        tree: "<a::b@38-42 call@42-44@38-44>@38-44",
    },
    Shape {
        name: "list with a trailing comma",
        text: "permit(principal,action,resource)when{[1,true,]};",
        tree: "<list <1@39-40>@39-40 <true@41-45>@41-45@38-47>@38-47",
    },
    Shape {
        name: "record",
        text: r#"permit(principal,action,resource)when{{a:1,"b":false}};"#,
        tree: r#"<record a@39-40:<1@41-42>@41-42@39-42 "b"@43-46:<false@47-52>@47-52@43-52@38-53>@38-53"#,
    },
];

static POLICIES: [Shape; 3] = [
    Shape {
        name: "bare policy",
        text: " permit(principal,action,resource) ;",
        tree: "permit@1-7 (principal@8-17)@8-17 (action@18-24)@18-24 (resource@25-33)@25-33@1-36",
    },
    Shape {
        name: "annotations and scope",
        text: r#"@id("x") @if forbid(principal is A in ?principal,action in [B::"x",],resource == ?resource);"#,
        tree: r#"@id@1-3("x"@4-7)@0-8 @if@10-12@9-12 forbid@13-19 (principal@20-29 is A@33-34 In ?Principal@38-48)@20-48 (action@49-55 In list <B@60-61::"x"@63-66@60-66>@60-66@59-68)@49-68 (resource@69-77 Eq ?Resource@81-90)@69-90@0-92"#,
    },
    Shape {
        name: "paths and conditions",
        text: r#"permit(principal is A::B,action == C::"x",resource in D::E::"y")when{1}unless{2};"#,
        tree: r#"permit@0-6 (principal@7-16 is A::B@20-24)@7-24 (action@25-31 Eq C@35-36::"x"@38-41@35-41)@25-41 (resource@42-50 In D::E@54-58::"y"@60-63@54-63)@42-63 when@64-68{<1@69-70>@69-70}@64-71 unless@71-77{<2@78-79>@78-79}@71-80@0-81"#,
    },
];

// The policy, or only the expressions of its conditions.
fn show(out: &mut String, policy: &Node<Policy<'_>>, is_whole: bool) {
    if is_whole {
        show_policy(out, policy);
    } else {
        for cond in &policy.inner.conds {
            show_expr(out, "", &cond.inner.expr);
        }
    }
}

fn expect_shape(rt: &impl Abort, alloc: Global, row: &Shape, is_whole: bool) {
    let tree = parse_policies(alloc, row.text).expect(rt, row.name);
    let mut out = String::new(alloc);
    for policy in &tree.policies {
        show(&mut out, policy, is_whole);
    }
    expect_text(rt, out.as_str(), row.tree, row.name);
}

#[test]
fn shapes_of_conditions(rt: HostRuntime) {
    for row in &CONDITIONS {
        expect_shape(&rt, rt.alloc(), row, false);
    }
}

#[test]
fn shapes_of_policies(rt: HostRuntime) {
    for row in &POLICIES {
        expect_shape(&rt, rt.alloc(), row, true);
    }
}

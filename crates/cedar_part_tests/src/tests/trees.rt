//! Trees compared.
use super::*;
use cedar_policy_formatter::cst::same_tree;
use cedar_policy_formatter::soundness_check;

// Two texts, and whether they are of the same policies; `None` where the second is refused.
struct Pair {
    name: &'static str,
    first: &'static str,
    second: &'static str,
    same: Option<bool>,
}

static PAIRS: [Pair; 51] = [
    // Scopes and annotations.
    Pair {
        name: "blanks in a scope",
        first: "permit(principal,action,resource);",
        second: "permit (principal, action, resource);",
        same: Some(true),
    },
    Pair {
        name: "trailing comma and a comment",
        first: "permit(principal,action,resource);",
        second: "permit(principal,action,resource,);// c",
        same: Some(true),
    },
    Pair {
        name: "permit and forbid",
        first: "permit(principal,action,resource);",
        second: "forbid(principal,action,resource);",
        same: Some(false),
    },
    Pair {
        name: "policy and none",
        first: "permit(principal,action,resource);",
        second: "",
        same: Some(false),
    },
    Pair {
        name: "annotations in another order",
        first: "@a@b permit(principal,action,resource);",
        second: "@b@a permit(principal,action,resource);",
        same: Some(false),
    },
    Pair {
        name: "annotation with an empty value",
        first: "@a permit(principal,action,resource);",
        second: r#"@a("")permit(principal,action,resource);"#,
        same: Some(false),
    },
    Pair {
        name: "in and equal before a slot",
        first: "permit(principal == ?principal,action,resource);",
        second: "permit(principal in ?principal,action,resource);",
        same: Some(false),
    },
    Pair {
        name: "types",
        first: "permit(principal is A,action,resource);",
        second: "permit(principal is B,action,resource);",
        same: Some(false),
    },
    Pair {
        name: "type and none",
        first: "permit(principal is A,action,resource);",
        second: "permit(principal,action,resource);",
        same: Some(false),
    },
    Pair {
        name: "trailing comma in a list of actions",
        first: r#"permit(principal,action in [A::"a",],resource);"#,
        second: r#"permit(principal,action in [A::"a"],resource);"#,
        same: Some(true),
    },
    Pair {
        name: "action and list of it",
        first: r#"permit(principal,action in A::"a",resource);"#,
        second: r#"permit(principal,action in [A::"a"],resource);"#,
        same: Some(false),
    },
    // Conditions.
    Pair {
        name: "when and unless",
        first: "permit(principal,action,resource)when{1};",
        second: "permit(principal,action,resource)unless{1};",
        same: Some(false),
    },
    Pair {
        name: "zeros before numbers",
        first: "permit(principal,action,resource)when{007==7};",
        second: "permit(principal,action,resource)when{7==07};",
        same: Some(true),
    },
    Pair {
        name: "two zeros and one",
        first: "permit(principal,action,resource)when{00};",
        second: "permit(principal,action,resource)when{0};",
        same: Some(true),
    },
    Pair {
        name: "brackets",
        first: "permit(principal,action,resource)when{(true)};",
        second: "permit(principal,action,resource)when{true};",
        same: Some(false),
    },
    Pair {
        name: "plus and minus",
        first: "permit(principal,action,resource)when{1+2};",
        second: "permit(principal,action,resource)when{1-2};",
        same: Some(false),
    },
    Pair {
        name: "blanks around an operator",
        first: "permit(principal,action,resource)when{1+2};",
        second: "permit(principal,action,resource)when{1 + 2};",
        same: Some(true),
    },
    Pair {
        name: "sums of three and two",
        first: "permit(principal,action,resource)when{1+2+3};",
        second: "permit(principal,action,resource)when{1+2};",
        same: Some(false),
    },
    Pair {
        name: "less, and less or equal",
        first: "permit(principal,action,resource)when{1<2};",
        second: "permit(principal,action,resource)when{1<=2};",
        same: Some(false),
    },
    Pair {
        name: "equal and not equal",
        first: "permit(principal,action,resource)when{1==2};",
        second: "permit(principal,action,resource)when{1!=2};",
        same: Some(false),
    },
    Pair {
        name: "number and string",
        first: "permit(principal,action,resource)when{1};",
        second: r#"permit(principal,action,resource)when{"1"};"#,
        same: Some(false),
    },
    Pair {
        name: "blank in a string",
        first: r#"permit(principal,action,resource)when{"a"};"#,
        second: r#"permit(principal,action,resource)when{"a "};"#,
        same: Some(false),
    },
    Pair {
        name: "one sign and two",
        first: "permit(principal,action,resource)when{!1};",
        second: "permit(principal,action,resource)when{!!1};",
        same: Some(false),
    },
    Pair {
        name: "not and minus",
        first: "permit(principal,action,resource)when{!1};",
        second: "permit(principal,action,resource)when{-1};",
        same: Some(false),
    },
    Pair {
        name: "not and nothing",
        first: "permit(principal,action,resource)when{!1};",
        second: "permit(principal,action,resource)when{1};",
        same: Some(false),
    },
    Pair {
        name: "trailing comma in a list",
        first: "permit(principal,action,resource)when{[1,2]};",
        second: "permit(principal,action,resource)when{[1,2,]};",
        same: Some(true),
    },
    Pair {
        name: "items in another order",
        first: "permit(principal,action,resource)when{[1,2]};",
        second: "permit(principal,action,resource)when{[2,1]};",
        same: Some(false),
    },
    Pair {
        name: "keys that are a name and a string",
        first: "permit(principal,action,resource)when{{a:1}};",
        second: r#"permit(principal,action,resource)when{{"a":1}};"#,
        same: Some(false),
    },
    Pair {
        name: "keys",
        first: "permit(principal,action,resource)when{{a:1}};",
        second: "permit(principal,action,resource)when{{b:1}};",
        same: Some(false),
    },
    Pair {
        name: "field and index",
        first: "permit(principal,action,resource)when{context.a};",
        second: r#"permit(principal,action,resource)when{context["a"]};"#,
        same: Some(false),
    },
    Pair {
        name: "argument and none",
        first: "permit(principal,action,resource)when{context.f(1)};",
        second: "permit(principal,action,resource)when{context.f()};",
        same: Some(false),
    },
    Pair {
        name: "trailing comma in a call",
        first: "permit(principal,action,resource)when{f(1,)};",
        second: "permit(principal,action,resource)when{f(1)};",
        same: Some(true),
    },
    Pair {
        name: "functions of one path",
        first: "permit(principal,action,resource)when{a::b()};",
        second: "permit(principal,action,resource)when{a::c()};",
        same: Some(false),
    },
    Pair {
        name: "paths of an entity",
        first: r#"permit(principal,action,resource)when{a::b::"c"};"#,
        second: r#"permit(principal,action,resource)when{b::b::"c"};"#,
        same: Some(false),
    },
    Pair {
        name: "strings of an entity",
        first: r#"permit(principal,action,resource)when{a::"b"};"#,
        second: r#"permit(principal,action,resource)when{a::"c"};"#,
        same: Some(false),
    },
    Pair {
        name: "has before a name and a string",
        first: "permit(principal,action,resource)when{1 has a};",
        second: r#"permit(principal,action,resource)when{1 has "a"};"#,
        same: Some(false),
    },
    Pair {
        name: "has and like",
        first: r#"permit(principal,action,resource)when{1 has "a"};"#,
        second: r#"permit(principal,action,resource)when{1 like "a"};"#,
        same: Some(false),
    },
    Pair {
        name: "is and is in",
        first: "permit(principal,action,resource)when{1 is A};",
        second: "permit(principal,action,resource)when{1 is A in 1};",
        same: Some(false),
    },
    Pair {
        name: "branches of an if",
        first: "permit(principal,action,resource)when{if 1 then 2 else 3};",
        second: "permit(principal,action,resource)when{if 1 then 3 else 2};",
        same: Some(false),
    },
    Pair {
        name: "or and and",
        first: "permit(principal,action,resource)when{1||2};",
        second: "permit(principal,action,resource)when{1&&2};",
        same: Some(false),
    },
    Pair {
        name: "product of two and three",
        first: "permit(principal,action,resource)when{1*2};",
        second: "permit(principal,action,resource)when{1*2*2};",
        same: Some(false),
    },
    Pair {
        name: "variables",
        first: "permit(principal,action,resource)when{principal};",
        second: "permit(principal,action,resource)when{action};",
        same: Some(false),
    },
    // Texts of several lines.
    Pair {
        name: "lines of blanks in a string",
        first: "permit (principal, action, resource)\n        when { \"\n        \n        a\n        \" };",
        second: r#"permit (principal, action, resource)
        when { "
        a
        " };"#,
        same: Some(false),
    },
    Pair {
        name: "policies in another order",
        first: r#"permit (principal, action, resource)
when { "a"};
permit (principal, action, resource)
when { "

a
" };"#,
        second: r#"permit (principal, action, resource)
when { "
a
" };
permit (principal, action, resource)
when { "a"};"#,
        same: Some(false),
    },
    Pair {
        name: "blanks before closing braces",
        first: r#"permit (principal, action, resource)
when { "a"   };
permit (principal, action, resource)
when { "b" };"#,
        second: r#"permit (principal, action, resource)
when { "a" };
permit (principal, action, resource)
when { "b"};"#,
        same: Some(true),
    },
    // More of scopes, conditions and annotations, and refused texts.
    Pair {
        name: "equal and in before a slot",
        first: "permit(principal in ?principal,action,resource);",
        second: "permit(principal == ?principal,action,resource);",
        same: Some(false),
    },
    Pair {
        name: "brackets around the second",
        first: "permit(principal,action,resource)when{true};",
        second: "permit(principal,action,resource)when{(true)};",
        same: Some(false),
    },
    Pair {
        name: "annotations apart in another order",
        first: "@a @b permit(principal,action,resource);",
        second: "@b @a permit(principal,action,resource);",
        same: Some(false),
    },
    Pair {
        name: "no semicolon in the second",
        first: "permit(principal,action,resource);",
        second: "permit(principal,action,resource)",
        same: None,
    },
    Pair {
        name: "unknown character in the second",
        first: "permit(principal,action,resource);",
        second: "=",
        same: None,
    },
    Pair {
        name: "trailing comma in a scope",
        first: "permit(principal,action,resource,);",
        second: "permit (principal, action, resource);",
        same: Some(true),
    },
];

fn compare(
    rt: &impl Abort,
    alloc: Global,
    first: &str,
    second: &str,
    want: Option<bool>,
    name: &str,
) {
    let tree = parse_policies(alloc, first).expect(rt, name);
    let same = match parse_policies(alloc, second) {
        Ok(other) => Some(same_tree(&tree, &other)),
        Err(_) => None,
    };
    let sound = soundness_check(alloc, second, &tree).err();
    expect_same(rt, same, want, name);
    expect_refusal(rt, sound, unsound(want), name);
}

// Only texts of the same policies are sound.
fn unsound(same: Option<bool>) -> Option<FormatError> {
    match same {
        Some(true) => None,
        _ => Some(FormatError::Unsound),
    }
}

#[test]
fn comparisons(rt: HostRuntime) {
    for row in &PAIRS {
        compare(&rt, rt.alloc(), row.first, row.second, row.same, row.name);
    }
}

// A text of 10,000 parts: what stands before the parts, the part, and what stands after them.
struct Long {
    name: &'static str,
    before: &'static str,
    part: &'static str,
    after: &'static str,
}

static LONG: [Long; 19] = [
    Long {
        name: "policies",
        before: "",
        part: "permit(principal,action,resource);",
        after: "",
    },
    Long {
        name: "conditions",
        before: "permit(principal,action,resource)",
        part: "when{1}",
        after: ";",
    },
    Long {
        name: "list of actions",
        before: "permit(principal,action in [",
        part: r#"A::"a","#,
        after: "],resource);",
    },
    Long {
        name: "annotations",
        before: "",
        part: "@a",
        after: " permit(principal,action,resource);",
    },
    Long {
        name: "annotations with values",
        before: "",
        part: r#"@a("b")"#,
        after: "permit(principal,action,resource);",
    },
    Long {
        name: "sum",
        before: "permit(principal,action,resource)when{1",
        part: "+1",
        after: "};",
    },
    Long {
        name: "difference",
        before: "permit(principal,action,resource)when{1",
        part: "-1",
        after: "};",
    },
    Long {
        name: "product",
        before: "permit(principal,action,resource)when{1",
        part: "*1",
        after: "};",
    },
    Long {
        name: "or",
        before: "permit(principal,action,resource)when{1",
        part: "||1",
        after: "};",
    },
    Long {
        name: "and",
        before: "permit(principal,action,resource)when{1",
        part: "&&1",
        after: "};",
    },
    Long {
        name: "fields",
        before: "permit(principal,action,resource)when{context",
        part: ".a",
        after: "};",
    },
    Long {
        name: "indexes",
        before: "permit(principal,action,resource)when{context",
        part: r#"["a"]"#,
        after: "};",
    },
    Long {
        name: "fields after has",
        before: "permit(principal,action,resource)when{1 has a",
        part: ".a",
        after: "};",
    },
    Long {
        name: "path of an entity",
        before: "permit(principal,action,resource)when{",
        part: "a::",
        after: r#""x"};"#,
    },
    Long {
        name: "path of a function",
        before: "permit(principal,action,resource)when{",
        part: "a::",
        after: "a()};",
    },
    Long {
        name: "path of a type",
        before: "permit(principal,action,resource)when{1 is a",
        part: "::a",
        after: "};",
    },
    Long {
        name: "list",
        before: "permit(principal,action,resource)when{[",
        part: "1,",
        after: "]};",
    },
    Long {
        name: "arguments",
        before: "permit(principal,action,resource)when{f(",
        part: "1,",
        after: ")};",
    },
    Long {
        name: "record",
        before: "permit(principal,action,resource)when{{",
        part: "a:1,",
        after: "}};",
    },
];

// Each long text is accepted, and its tree is the same as itself.
#[test]
fn long_texts(rt: HostRuntime) {
    for row in &LONG {
        let parts = [Once(row.before), Times(10_000, row.part), Once(row.after)];
        let text = joined(rt.alloc(), &parts).expect(&rt, row.name);
        let text = text.as_str();
        compare(&rt, rt.alloc(), text, text, Some(true), row.name);
    }
}

//! Texts that the formatter accepts, each with a width and an indentation. Their layouts are in `tests/rows`.

// A text, and at which width and indentation it is laid out from its documents; it is swept at many others.
#[derive(Clone, Copy)]
pub(super) struct Sample {
    pub(super) name: &'static str,
    pub(super) text: &'static str,
    pub(super) width: usize,
    pub(super) indent: isize,
}

// What a text has that says nothing else: the default width and indentation.
const SAMPLE: Sample = Sample {
    name: "",
    text: "",
    width: 80,
    indent: 2,
};

// Ends of texts, and closing comments.
pub(super) static ENDS: [Sample; 13] = [
    Sample {
        name: "empty text",
        text: "",
        ..SAMPLE
    },
    Sample {
        name: "only a comment",
        text: "// c",
        ..SAMPLE
    },
    Sample {
        name: "laid out but for the line feed",
        text: "permit (principal, action, resource);",
        ..SAMPLE
    },
    Sample {
        name: "laid out",
        text: r#"permit (principal, action, resource);
"#,
        ..SAMPLE
    },
    Sample {
        name: "carriage return at the end",
        text: "permit (principal, action, resource);\r\n",
        ..SAMPLE
    },
    Sample {
        name: "empty lines at the end",
        text: "permit (principal, action, resource);\n\r\n\n",
        ..SAMPLE
    },
    Sample {
        name: "closing comment without a line feed",
        text: r#"permit (principal, action, resource);
//foo"#,
        ..SAMPLE
    },
    Sample {
        name: "empty lines after a closing comment",
        text: r#"permit (principal, action, resource);
//foo


"#,
        ..SAMPLE
    },
    Sample {
        name: "blank after the last closing comment",
        text: "permit (principal, action, resource);\n//foo\n//bar ",
        ..SAMPLE
    },
    Sample {
        name: "blanks and empty lines after closing comments",
        text: "permit (principal, action, resource);\n//foo\n//bar   \n\n\n",
        ..SAMPLE
    },
    Sample {
        name: "two closing comments without a line feed",
        text: r#"permit (principal, action, resource);
//foo
//bar"#,
        ..SAMPLE
    },
    Sample {
        name: "empty lines after two closing comments",
        text: r#"permit (principal, action, resource);
//foo
//bar


"#,
        ..SAMPLE
    },
    Sample {
        name: "lines of blanks after closing comments",
        text: "permit (principal, action, resource);\n//foo\n//bar   \n \n \n",
        ..SAMPLE
    },
];

// Scopes, annotations, and policies next to each other.
pub(super) static SCOPES: [Sample; 12] = [
    Sample {
        name: "principal that equals an entity",
        text: r#"permit(principal == User::"a",action,resource);"#,
        ..SAMPLE
    },
    Sample {
        name: "principal that equals a slot",
        text: "permit(principal == ?principal, action, resource);",
        ..SAMPLE
    },
    Sample {
        name: "annotation",
        text: r#"@id("x")permit(principal,action,resource);"#,
        ..SAMPLE
    },
    Sample {
        name: "two policies on one line",
        text: "permit(principal,action,resource);permit(principal,action,resource);",
        ..SAMPLE
    },
    Sample {
        name: "no-break space between tokens",
        text: "permit\u{a0}(principal,action,resource);",
        ..SAMPLE
    },
    Sample {
        name: "trailing comma in a scope",
        text: "permit(principal,action,resource,);",
        ..SAMPLE
    },
    Sample {
        name: "trailing comma in a list of actions",
        text: r#"permit(principal,action in [A::"x",],resource);"#,
        ..SAMPLE
    },
    Sample {
        name: "list of actions one wider than the width",
        text: r#"permit(principal,action in [A::"x",A::"y"],resource);"#,
        width: 20,
        ..SAMPLE
    },
    Sample {
        name: "list of actions as wide as the width",
        text: r#"permit(principal,action in [A::"x",A::"y"],resource);"#,
        width: 21,
        ..SAMPLE
    },
    Sample {
        name: "scope at width 0",
        text: "forbid(principal,action,resource);",
        width: 0,
        ..SAMPLE
    },
    Sample {
        name: "type and slot one wider than the width",
        text: "permit(principal is A in ?principal,action,resource);",
        width: 18,
        ..SAMPLE
    },
    Sample {
        name: "type and slot as wide as the width",
        text: "permit(principal is A in ?principal,action,resource);",
        width: 19,
        ..SAMPLE
    },
];

// Comments between tokens, and around trailing commas.
pub(super) static COMMENTS: [Sample; 14] = [
    Sample {
        name: "comment after the comma of a variable",
        text: r#"permit(principal, // p
action,resource);"#,
        ..SAMPLE
    },
    Sample {
        name: "comment before an operator",
        text: r#"permit(principal,action,resource)when{"a"
// c
== "b"};"#,
        ..SAMPLE
    },
    Sample {
        name: "comments in an argument",
        text: r#"permit(principal,action,resource)when{f(1 // x
// y
)};"#,
        ..SAMPLE
    },
    Sample {
        name: "comment in a name",
        text: r#"permit(principal is A // x
::B,action,resource);"#,
        ..SAMPLE
    },
    Sample {
        name: "comment after a policy",
        text: "permit(principal,action,resource); // t",
        ..SAMPLE
    },
    Sample {
        name: "trailing, leading and closing comments",
        text: r#"permit(principal,action,resource); // t
// l
permit(principal,action,resource);
// e"#,
        ..SAMPLE
    },
    Sample {
        name: "carriage return in a trailing comment",
        text: "permit(principal,action,resource);// a\r// b",
        ..SAMPLE
    },
    Sample {
        name: "carriage return before a trailing comment",
        text: "permit(principal,action,resource);\r// a\r// b\n// c",
        ..SAMPLE
    },
    Sample {
        name: "carriage return between leading comments",
        text: "// a\r// b\npermit(principal,action,resource);",
        ..SAMPLE
    },
    Sample {
        name: "line separator in a comment",
        text: "permit(principal,action,resource);// a\u{2028}b",
        ..SAMPLE
    },
    Sample {
        name: "quote in a comment",
        text: r#"permit(principal,action,resource)when{"a" // "b
};"#,
        ..SAMPLE
    },
    Sample {
        name: "comment after a trailing comma",
        text: r#"permit(principal,action,resource, // r
);"#,
        ..SAMPLE
    },
    Sample {
        name: "comments around a trailing comma",
        text: r#"permit(principal,action,resource // a
// b
, // c
// d
);"#,
        ..SAMPLE
    },
    Sample {
        name: "comments around a trailing comma in a list",
        text: r#"permit(principal,action,resource)when{[1 // a
, // b
]};"#,
        ..SAMPLE
    },
];

// Conditions, and the strings in them.
pub(super) static CONDITIONS: [Sample; 16] = [
    Sample {
        name: "condition",
        text: "permit(principal,action,resource)when{true};",
        ..SAMPLE
    },
    Sample {
        name: "two conditions",
        text: "forbid(principal,action,resource)when{true}unless{false};",
        ..SAMPLE
    },
    Sample {
        name: "number with zeros in front",
        text: "permit(principal,action,resource)when{007==7};",
        ..SAMPLE
    },
    Sample {
        name: "has, tags and a call",
        text: r#"permit(principal,action,resource)unless{principal has a.b&&resource.tags.contains("x")};"#,
        ..SAMPLE
    },
    Sample {
        name: "record, list and is in",
        text: r#"permit(principal,action,resource)when{{a:1,"b":[2,-3]}==context&&principal is A::B in A::"c"};"#,
        ..SAMPLE
    },
    Sample {
        name: "field named as a keyword",
        text: "permit(principal,action,resource)when{context.permit};",
        ..SAMPLE
    },
    Sample {
        name: "trailing comma in a list",
        text: "permit(principal,action,resource)when{[1,2,]==[]};",
        ..SAMPLE
    },
    Sample {
        name: "trailing commas in a record and a call",
        text: "permit(principal,action,resource)when{f({a:1,},)};",
        ..SAMPLE
    },
    Sample {
        name: "empty record",
        text: "permit(principal,action,resource)when{{}};",
        ..SAMPLE
    },
    Sample {
        name: "sum and product",
        text: "permit(principal,action,resource)when{1+2*3};",
        ..SAMPLE
    },
    Sample {
        name: "two signs before a chain of accesses",
        text: "permit(principal,action,resource)when{!!context.b(1).c};",
        ..SAMPLE
    },
    Sample {
        name: "if then else",
        text: "permit(principal,action,resource)when{if true then 1 else 2};",
        ..SAMPLE
    },
    Sample {
        name: "string with an empty line and slashes",
        text: r#"permit(principal,action,resource)when{"a

// b"};"#,
        ..SAMPLE
    },
    Sample {
        name: "slashes and brackets in strings",
        text: r#"permit(principal,action,resource)when{"
//"=="};"};"#,
        ..SAMPLE
    },
    Sample {
        name: "string with lines of blanks",
        text: "permit (principal, action, resource)\n        when { \"\n        \n        a\n        \" };",
        ..SAMPLE
    },
    Sample {
        name: "blanks before a closing brace",
        text: r#"permit (principal, action, resource)
when { "a"   };
permit (principal, action, resource)
when { "b" };"#,
        ..SAMPLE
    },
];

// Widths and indentations.
pub(super) static WIDTHS: [Sample; 18] = [
    Sample {
        name: "policy as wide as the width",
        text: "permit(principal,action,resource);",
        width: 37,
        ..SAMPLE
    },
    Sample {
        name: "policy one wider than the width",
        text: "permit(principal,action,resource);",
        width: 36,
        ..SAMPLE
    },
    Sample {
        name: "condition at width 0",
        text: "permit(principal,action,resource)when{true};",
        width: 0,
        ..SAMPLE
    },
    Sample {
        name: "largest width",
        text: r#"permit(principal,action,resource)when{if a::"x"==principal then true else false};"#,
        width: usize::MAX,
        ..SAMPLE
    },
    Sample {
        name: "if broken over lines",
        text: r#"permit(principal,action,resource)when{if a::"x"==principal then true else false};"#,
        width: 30,
        ..SAMPLE
    },
    Sample {
        name: "calls broken at their arguments",
        text: r#"permit(principal, action, resource) when {
            decimal("1.000000000000000000000000000000000000000000") &&
            ip("192.168.0.1").isInRange(ip("192.168.0.0/24"))
        };
"#,
        width: 40,
        ..SAMPLE
    },
    Sample {
        name: "trailing comment that ends at column 80",
        text: "permit(principal,action,resource);// xxxxxxxxxxxxxxxxxxxxxxxxxxxxxxxxxxxxxxx",
        ..SAMPLE
    },
    Sample {
        name: "trailing comment that ends at column 81",
        text: "permit(principal,action,resource);// xxxxxxxxxxxxxxxxxxxxxxxxxxxxxxxxxxxxxxxx",
        ..SAMPLE
    },
    Sample {
        name: "trailing comment as wide as the width",
        text: "permit(principal,action,resource);// t",
        width: 42,
        ..SAMPLE
    },
    Sample {
        name: "trailing comment one wider than the width",
        text: "permit(principal,action,resource);// t",
        width: 41,
        ..SAMPLE
    },
    Sample {
        name: "trailing comment two wider than the width",
        text: "permit(principal,action,resource);// t",
        width: 40,
        ..SAMPLE
    },
    Sample {
        name: "trailing comment where the policy is too wide itself",
        text: "permit(principal,action,resource);// t",
        width: 36,
        ..SAMPLE
    },
    Sample {
        name: "indentation 0",
        text: "permit(principal,action,resource);",
        width: 37,
        indent: 0,
    },
    Sample {
        name: "negative indentation",
        text: r#"permit(principal == User::"a",action,resource);"#,
        indent: -3,
        ..SAMPLE
    },
    Sample {
        name: "brackets at a negative indentation",
        text: "permit(principal,action,resource)when{(1+2)};",
        width: 0,
        indent: -3,
    },
    Sample {
        name: "brackets at the least indentation",
        text: "permit(principal,action,resource)when{(1+2)};",
        width: 0,
        indent: isize::MIN,
    },
    Sample {
        name: "largest indentation where nothing is indented",
        text: "permit(principal,action,resource);",
        indent: isize::MAX,
        ..SAMPLE
    },
    Sample {
        name: "condition at the largest indentation",
        text: "permit(principal,action,resource)when{true};",
        indent: isize::MAX,
        ..SAMPLE
    },
];

//! Tokens as slices of a text, worked out by hand.
use cedar_reading::lexeme::{Lexeme, check_tokens};
use cedar_reading::listing::{has_trailing_comma, store_plain_tokens, store_tokens};
use cedar_reading::pieces::read_piece;
use cedar_reading::token::Token;
use cedar_reading::token_check::has_tokens;
use cedar_tokens::token::get_comment;
use std::alloc::{AllocError, Global};
use std::test::Fail;

// A text without a `;`, its tokens, and those that are left without trailing commas. Each token is shown as its leading lines in
// brackets, its text, its trailing text in braces, and a blank; then the closing comments in brackets.
struct Row {
    name: &'static str,
    text: &'static str,
    tokens: &'static str,
    plain: &'static str,
}

static ROWS: [Row; 10] = [
    Row {
        name: "no token",
        text: " // a\n\n// b",
        tokens: "[// a][// b]",
        plain: "[// a][// b]",
    },
    Row {
        name: "comments around tokens",
        text: "// a\n//b\npermit // c\n // d\n( // e // f\r// g\n// h",
        tokens: "[// a][//b]permit{// c} [// d]({// e // f\r// g} [// h]",
        plain: "[// a][//b]permit{// c} [// d]({// e // f\r// g} [// h]",
    },
    Row {
        name: "comments after a trailing comma",
        text: "(a, // t\n)",
        tokens: "( a ,{// t} ) ",
        plain: "( a{// t} ) ",
    },
    Row {
        name: "comments on both sides of it",
        text: "[a // x\n, // t\n// b\n]",
        tokens: "[ a{// x} ,{// t} [// b]] ",
        plain: "[ a{// x} [// t][// b]] ",
    },
    Row {
        name: "comments on lines before it",
        text: "{a\n// x\n// y\n, // t\n}// z\n",
        tokens: "{ a [// x][// y],{// t} }{// z} ",
        plain: "{ a [// x][// y][// t]}{// z} ",
    },
    Row {
        name: "two commas",
        text: "(a, // x\n, // y\n)",
        tokens: "( a ,{// x} ,{// y} ) ",
        plain: "( a ,{// x} [// y]) ",
    },
    Row {
        name: "the second comma alone has a comment",
        text: "(a,, // y\n)",
        tokens: "( a , ,{// y} ) ",
        plain: "( a ,{// y} ) ",
    },
    Row {
        name: "comma first",
        text: "// w\n, // x\n// y\n)",
        tokens: "[// w],{// x} [// y]) ",
        plain: "[// w][// x][// y]) ",
    },
    Row {
        name: "trailing commas in brackets",
        text: "[1, // a\n(2, // b\n), // c\n], {3,}, ,",
        tokens: "[ 1 ,{// a} ( 2 ,{// b} ) ,{// c} ] , { 3 , } , , ",
        plain: "[ 1 ,{// a} ( 2{// b} ){// c} ] , { 3 } , , ",
    },
    Row {
        name: "comma in a string",
        text: "(\",\" , )",
        tokens: "( \",\" , ) ",
        plain: "( \",\" ) ",
    },
];

fn push_marked(out: &mut String, before: &str, text: &str, after: &str) -> Result<(), AllocError> {
    out.push_str(before)?;
    out.push_str(text)?;
    out.push_str(after)
}

fn push_token(out: &mut String, token: &Token<'_, '_>) -> Result<(), AllocError> {
    for line in token.lines() {
        push_marked(out, "[", line, "]")?;
    }
    out.push_str(token.text())?;
    if !token.trailing().is_empty() {
        push_marked(out, "{", token.trailing(), "}")?;
    }
    out.push_str(" ")
}

fn shown(alloc: Global, tokens: &[Token<'_, '_>], closing: &str) -> Result<String, AllocError> {
    let mut out = String::new(alloc);
    for token in tokens {
        push_token(&mut out, token)?;
    }
    for line in get_comment(closing) {
        push_marked(&mut out, "[", line, "]")?;
    }
    Ok(out)
}

// The tokens of a text without a `;`, as they are and without trailing commas.
#[derive(Drop)]
struct Lists<'src> {
    tokens: Vec<Token<'src, 'src>>,
    closing: &'src str,
    plain: Vec<Token<'src, 'src>>,
    plain_closing: &'src str,
}

fn lists_of<'src>(alloc: Global, text: &'src str) -> Result<Option<Lists<'src>>, AllocError> {
    let mut lexemes: Vec<Lexeme<'src>> = Vec::new(alloc);
    let mut tokens = Vec::new(alloc);
    let mut plain = Vec::new(alloc);
    let None = read_piece(text, &mut lexemes)? else {
        return Ok(None);
    };
    let Ok(()) = check_tokens(text) else {
        return Ok(None);
    };
    let closing = store_tokens(text, &lexemes, &mut tokens)?;
    let plain_closing = store_plain_tokens(text, &lexemes, &mut plain)?;
    Ok(Some(Lists {
        tokens,
        closing,
        plain,
        plain_closing,
    }))
}

#[test]
fn tokens_with_comments(rt: HostRuntime) -> Result<(), Fail> {
    let alloc = rt.alloc();
    for row in &ROWS {
        let lists = lists_of(alloc, row.text)?.ok_or(row.name)?;
        let tokens = shown(alloc, &lists.tokens, lists.closing)?;
        assert_eq!(rt; tokens.as_str(), row.tokens, "{}", row.name);
        let plain = shown(alloc, &lists.plain, lists.plain_closing)?;
        assert_eq!(rt;
            plain.as_str(),
            row.plain,
            "{}, without trailing commas",
            row.name
        );
        let trails = has_trailing_comma(&lists.tokens);
        assert_eq!(rt; trails, row.tokens != row.plain, "{}", row.name);
    }
    Ok(())
}

// The texts whose comments lead a token are those of a dropped comma, and its own.
#[test]
fn leading_lines_of_a_comma(rt: HostRuntime) -> Result<(), Fail> {
    let lists = lists_of(rt.alloc(), "(// x\n, // t\n // b\n)")?.ok_or("no tokens")?;
    assert_eq!(rt; lists.plain.len(), 2);
    let mut lines = lists.plain[1].lines();
    assert_eq!(rt; lines.next(), Some("// t"));
    assert_eq!(rt; lines.next(), Some("// b"));
    assert_eq!(rt; lines.next(), None);
    Ok(())
}

#[test]
fn other_texts_of_tokens(rt: HostRuntime) -> Result<(), Fail> {
    let lists = lists_of(rt.alloc(), "(x, 007, \"07\",)")?.ok_or("no tokens")?;
    assert!(rt; has_tokens("( x, // c\n 7, \"07\" )", &lists.plain));
    assert!(rt; has_tokens("(x,7,\"07\",)", &lists.tokens));
    assert!(rt; !has_tokens("(x,7,\"7\")", &lists.plain), "another string");
    assert!(rt; !has_tokens("(x,7,\"07\",)", &lists.plain), "one more");
    assert!(rt; !has_tokens("(x,7,\"07\"", &lists.plain), "one less");
    assert!(rt;
        !has_tokens("(x,7,\"07\") #", &lists.plain),
        "no token at the end"
    );
    Ok(())
}

//! Where reading continues after a fault.
ghost use Rattle.std.specs.Prelude.{◌≡◌, ◌≢◌, [], true, IfSome, MatchOption};
ghost use Rattle.std.specs.Str.{IsCharBoundary};
ghost use Rattle.cedar_tokens.specs.Units.{FindsLongest, IsUnit};
ghost use Rattle.cedar_faults.specs.Inside.Lines.{EndsSemicolon, HasNoSemicolon, HasNoString, IsFirstInLine, IsFirstLine, IsLine};
ghost use Rattle.cedar_faults.specs.Recovery.{Resumes};

use cedar_tokens::lexer::first_unit;

/// After a fault at the byte `at` of the text reading continues here: after the next `;` that is a token, or at the text's end.
/// The `;` of a string counts if the string extends over lines, since its quote may be the slip. Takes time in proportion to
/// what is passed over.
pub(crate) fn resume(text: &str, at: usize) -> usize
    requires { IsCharBoundary text.now at }
    ensures { Resumes text.now at result }
{
    let mut end = at;
    'lines: loop {
        let line = first_line(&text[end..]);
        if let Some(len) = semicolon_end(line) {
            return end + len;
        }
        end += line.len();
        if end == text.len() {
            return end;
        }
        // (a line feed)
        end += 1;
    }
}

// The text before its first line feed.
fn first_line(text: &str) -> &str
    ensures { IsFirstLine text.now result.now }
{
    match text.split_once('\n') {
        Some((line, _)) => line,
        None => text,
    }
}

// Where the first `;` ends that is passed over in a line. Once a string was met that the line doesn't end, no later quote begins
// one that it does: each of them is escaped in that string. So each byte is read twice at most.
fn semicolon_end(line: &str) -> Option<usize>
    requires { IsLine line.now }
    ensures { MatchOption result (HasNoSemicolon line.now) (EndsSemicolon line.now) }
{
    let mut at = 0;
    let mut is_open = false;
    while at < line.len() {
        let passed = first_in_line(&line[at..], is_open);
        at += passed.len();
        if passed == ";" {
            return Some(at);
        }
        is_open |= passed == "\"";
    }
    None
}

// What is passed over first in a line: a unit, or a character. `is_open`: no string that begins in the line ends in it.
fn first_in_line(line: &str, is_open: bool) -> &str
    requires some { line.now ≢ [] }
    requires none_ends { is_open ≡ true → HasNoString line.now }
    ensures { IsFirstInLine line.now result.now }
{
    let len = match first_unit_len(line, is_open) {
        Some(len) => len,
        None => line.ceil_char_boundary(1),
    };
    &line[..len]
}

// The length of the unit that a line begins with. `is_open`: no string that begins in the line ends in it.
fn first_unit_len(line: &str, is_open: bool) -> Option<usize>
    requires some { line.now ≢ [] }
    requires none_ends { is_open ≡ true → HasNoString line.now }
    ensures unit { FindsLongest IsUnit line.now result }
    ensures boundary { IfSome result (IsCharBoundary line.now) }
{
    if is_open && line.as_bytes()[0] == b'"' {
        return None;
    }
    let (_, len) = first_unit(line)?;
    Some(len)
}

//! Documents of comments and brackets.
ghost use Rattle.std.specs.Prelude.{◌≡◌, IfOk, map};
ghost use Rattle.cedar_layout.specs.Comments.{lead_of, trail_of, bracketed};
ghost use Rattle.cedar_layout.specs.Layout.{◌·◌};
ghost use Rattle.cedar_layout.specs.Value.{doc_of};
ghost use Rattle.cedar_tokens.specs.Tokens.{leading_lines, trailing_text};

use crate::layout::Document;
use cedar_tokens::token::Comment;
use std::alloc::{AllocError, Global};

/// The leading lines, each after a break, and a break after the last; nothing if there are none.
pub fn get_leading_comment_doc_from_str<'src>(
    alloc: Global,
    leading: &[&'src str],
) -> Result<Document<'src>, AllocError>
    ensures { IfOk result (λ d. doc_of d ≡ lead_of (map (λ l. l.now) leading.now)) }
{
    if leading.is_empty() {
        return Ok(Document::Nil);
    }
    let mut docs = Vec::new(alloc);
    docs.push(Document::Hard)?;
    for line in leading {
        docs.push(Document::Text(line))?;
        docs.push(Document::Hard)?;
    }
    Ok(Document::Seq(docs))
}

/// A space, the trailing text and a break; `next_doc` if the text is empty.
pub fn get_trailing_comment_doc_from_str<'src>(
    alloc: Global,
    trailing: &'src str,
    next_doc: Document<'src>,
) -> Result<Document<'src>, AllocError>
    ensures { IfOk result (λ d. doc_of d ≡ trail_of trailing.now (doc_of next_doc.entry)) }
{
    if trailing.is_empty() {
        return Ok(next_doc);
    }
    let docs = vec![in alloc;
        Document::Text(" "),
        Document::Text(trailing),
        Document::Hard,
    ]?;
    Ok(Document::Seq(docs))
}

/// The comment's leading lines, `d`, and its trailing text, with `next_doc` in place of an empty one.
pub fn add_comment<'src>(
    alloc: Global,
    d: Document<'src>,
    comment: &Comment<'src>,
    next_doc: Document<'src>,
) -> Result<Document<'src>, AllocError>
    ensures { IfOk result (λ r. doc_of r ≡ lead_of (leading_lines comment.now) · doc_of d.entry · trail_of (trailing_text comment.now) (doc_of next_doc.entry)) }
{
    let leading = get_leading_comment_doc_from_str(alloc, comment.leading_comment())?;
    let trailing = get_trailing_comment_doc_from_str(alloc, comment.trailing_comment(), next_doc)?;
    // (without a comment, this is `d` alone)
    let led = leading.append(alloc, d)?;
    led.append(alloc, trailing)
}

/// `leftp`, `d` with its breaks indented by `offset` more columns, and `rightp`.
pub fn add_brackets<'src>(
    alloc: Global,
    d: Document<'src>,
    leftp: Document<'src>,
    rightp: Document<'src>,
    offset: isize,
) -> Result<Document<'src>, AllocError>
    ensures { IfOk result (λ r. doc_of r ≡ bracketed (doc_of d.entry) (doc_of leftp.entry) (doc_of rightp.entry) offset) }
{
    let inner = d.nest(alloc, offset)?;
    Ok(Document::Seq(vec![in alloc; leftp, inner, rightp]?))
}

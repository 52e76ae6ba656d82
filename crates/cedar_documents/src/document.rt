//! The document of marks.
ghost use Rattle.std.specs.Prelude.{◌≡◌, [], ◌∷◌, ◌++◌, IfOk};
ghost use Rattle.cedar_layout.specs.Layout.{Doc, ◌·◌};
ghost use Rattle.cedar_layout.specs.Value.{doc_of, docs_of};
ghost use Rattle.cedar_print.specs.Marks.{mark_of, marks_of};
ghost use Rattle.cedar_print.specs.WrittenMarks.{AreMarks, end_nest, end_group, end_nothing};
ghost use Rattle.cedar_documents.specs.Inside.Read.{step, state_of};

use cedar_layout::layout::Document;
use cedar_print::mark::Mark;
use std::alloc::{AllocError, Global};

/// What has begun, with the documents before it.
#[derive(Drop)]
pub(crate) struct Begun<'src> {
    /// The columns of a nest; none of what may become a group.
    pub columns: Option<isize>,
    pub before: Vec<Document<'src>>,
}

/// The document that the marks are of.
pub fn to_document<'src>(alloc: Global, marks: &[Mark<'src>]) -> Result<Document<'src>, AllocError>
    ensures { IfOk result (λ x. (d : Doc) → AreMarks (marks_of marks.now) d → doc_of x ≡ d) }
{
    let mut begun = Vec::new(alloc);
    let mut docs = Vec::new(alloc);
    for mark in marks {
        docs = take_up(alloc, mark, docs, &mut begun)?;
    }
    Ok(Document::Seq(docs))
}

/// The documents of what began last, after a mark; `docs` are those before it.
fn take_up<'src>(
    alloc: Global,
    mark: &Mark<'src>,
    docs: Vec<Document<'src>>,
    begun: &mut Vec<Begun<'src>>,
) -> Result<Vec<Document<'src>>, AllocError>
    ensures { IfOk result (λ v. state_of begun.new.items v.items ≡ step (mark_of mark.now) (state_of begun.old.items docs.entry.items)) }
{
    match mark {
        Mark::Text(text) => with_one_more(docs, Document::Text(text)),
        Mark::Space => with_one_more(docs, Document::Text(" ")),
        Mark::Line => with_one_more(docs, Document::Line),
        Mark::LineOrNil => with_one_more(docs, Document::LineOrNil),
        Mark::Hard => with_one_more(docs, Document::Hard),
        Mark::Nest(n) => begin(alloc, Some(n.columns), docs, begun),
        Mark::Begin => begin(alloc, None, docs, begun),
        Mark::EndNest => end_nest(alloc, docs, begun),
        Mark::EndGroup => end_group(alloc, docs, begun),
        Mark::EndNothing => end_nothing(docs, begun),
    }
}

/// These documents and one more.
fn with_one_more<'src>(
    mut docs: Vec<Document<'src>>,
    doc: Document<'src>,
) -> Result<Vec<Document<'src>>, AllocError>
    ensures { IfOk result (λ v. docs_of v.items ≡ docs_of docs.entry.items · doc_of doc.entry) }
{
    docs.push(doc)?;
    Ok(docs)
}

/// Begins a nest or what may become a group, which has no documents yet.
fn begin<'src>(
    alloc: Global,
    columns: Option<isize>,
    before: Vec<Document<'src>>,
    begun: &mut Vec<Begun<'src>>,
) -> Result<Vec<Document<'src>>, AllocError>
    ensures { IfOk result (λ v. (begun.new.items ≡ begun.old.items ++ record { columns = columns; before = before.entry } ∷ []) × (v.items ≡ [])) }
{
    begun.push(Begun { columns, before })?;
    Ok(Vec::new(alloc))
}

/// Ends a nest of these documents; anything else that began becomes nothing.
fn end_nest<'src>(
    alloc: Global,
    docs: Vec<Document<'src>>,
    begun: &mut Vec<Begun<'src>>,
) -> Result<Vec<Document<'src>>, AllocError>
    ensures { IfOk result (λ v. state_of begun.new.items v.items ≡ step end_nest (state_of begun.old.items docs.entry.items)) }
{
    match begun.pop() {
        None => Ok(docs),
        Some(Begun { columns, before }) => match columns {
            None => with_one_more(before, Document::Seq(docs)),
            Some(n) => {
                let inner = Box::new(alloc, Document::Seq(docs))?;
                with_one_more(before, Document::Nest(n, inner))
            }
        },
    }
}

/// Ends a group of these documents.
fn end_group<'src>(
    alloc: Global,
    docs: Vec<Document<'src>>,
    begun: &mut Vec<Begun<'src>>,
) -> Result<Vec<Document<'src>>, AllocError>
    ensures { IfOk result (λ v. state_of begun.new.items v.items ≡ step end_group (state_of begun.old.items docs.entry.items)) }
{
    match begun.pop() {
        None => Ok(docs),
        Some(last) => {
            let inner = Box::new(alloc, Document::Seq(docs))?;
            with_one_more(last.before, Document::Group(inner))
        }
    }
}

/// Ends what is no group.
fn end_nothing<'src>(
    docs: Vec<Document<'src>>,
    begun: &mut Vec<Begun<'src>>,
) -> Result<Vec<Document<'src>>, AllocError>
    ensures { IfOk result (λ v. state_of begun.new.items v.items ≡ step end_nothing (state_of begun.old.items docs.entry.items)) }
{
    match begun.pop() {
        None => Ok(docs),
        Some(last) => with_one_more(last.before, Document::Seq(docs)),
    }
}

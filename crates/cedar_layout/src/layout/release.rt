//! Dropping documents. A derived drop recurses once per level and overflows the stack on deep documents. Here the vectors
//! of the sequences serve as the stack, so nothing is allocated.
ghost use Rattle.std.specs.Prelude.{◌≡◌, ◌+◌, ◌≤◌, ◌<◌, [], ◌∷◌, ◌++◌, vec_len};
ghost use Rattle.std.specs.Vec.{vec_capacity};
ghost use Rattle.cedar_layout.specs.Inside.Releasing.{work};

use crate::layout::Document;

/// Drops documents, the last one first.
pub(crate) fn release_all(mut docs: Vec<Document<'_>>) {
    while let Some(doc) = docs.pop() {
        docs = doc.released(docs);
    }
    docs.destroy_empty();
}

impl<'src> Document<'src> {
    /// The documents that remain when this one is dropped: `docs`, which have room for one more, and those that it contains.
    fn released(self, mut docs: Vec<Document<'src>>) -> Vec<Document<'src>>
        requires { vec_len docs < vec_capacity docs }
        ensures { work result.items + 1 ≤ work (docs.entry.items ++ self.entry ∷ []) }
    {
        match self {
            Document::Nil
            | Document::Text(_)
            | Document::Line
            | Document::LineOrNil
            | Document::Hard => docs,
            Document::Seq(more) => joined(docs, more),
            Document::Nest(_, inner) => {
                put(&mut docs, Box::into_inner(inner));
                docs
            }
            Document::Group(inner) => {
                put(&mut docs, Box::into_inner(inner));
                docs
            }
        }
    }
}

/// Both lists in one: `docs`, with one item of `more` added, as the first item of the others.
fn joined<'src>(mut docs: Vec<Document<'src>>, mut more: Vec<Document<'src>>) -> Vec<Document<'src>>
    requires { vec_len docs < vec_capacity docs }
    ensures { work result.items + 1 ≤ work (docs.entry.items ++ Document.Seq more.entry ∷ []) }
{
    if docs.is_empty() {
        docs.destroy_empty();
        return more;
    }
    match more.pop() {
        None => {
            more.destroy_empty();
            docs
        }
        Some(last) => {
            put(&mut docs, last);
            match more.insert(0, Document::Seq(docs)) {
                Ok(()) => more,
                Err(_) => unreachable!(),
            }
        }
    }
}

/// Adds a document within the existing capacity.
fn put<'src>(docs: &mut Vec<Document<'src>>, doc: Document<'src>)
    requires { vec_len docs.old < vec_capacity docs.old }
    ensures { docs.new.items ≡ docs.old.items ++ doc.entry ∷ [] }
{
    match docs.push(doc) {
        Ok(()) => {}
        Err(_) => unreachable!(),
    }
}

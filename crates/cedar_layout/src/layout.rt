//! Documents: texts with places where they may break.
ghost use Rattle.std.specs.Prelude.{◌≡◌, map, IfOk};
ghost use Rattle.cedar_layout.specs.Layout.{◌·◌, nest, group};
ghost use Rattle.cedar_layout.specs.Value.{doc_of, docs_of, interspersed};

pub mod columns;
mod release;
mod steps;

pub use crate::laws::{
    every_choice_prints_the_atoms, one_layout_at_a_width, wide_lines_are_broken,
};
use crate::layout::release::release_all;
use std::alloc::{AllocError, Global};
pub use steps::Steps;

/// A text with places where it may break.
pub enum Document<'src> {
    /// Nothing.
    Nil,
    /// A text, which is never broken.
    Text(&'src str),
    /// A space where it is laid out flat, else a break.
    Line,
    /// Nothing where it is laid out flat, else a break.
    LineOrNil,
    /// A break, always.
    Hard,
    /// One document after the other.
    Seq(Vec<Document<'src>>),
    /// A document whose breaks are indented by this many more columns.
    Nest(isize, Box<Document<'src>>),
    /// A document that is laid out flat as a whole if it fits.
    Group(Box<Document<'src>>),
}

impl<'src> Document<'src> {
    /// This document followed by the other one. A sequence takes the other one at its end, so a chain of these is a single
    /// sequence.
    pub fn append(self, alloc: Global, other: Document<'src>) -> Result<Document<'src>, AllocError>
        ensures { IfOk result (λ d. doc_of d ≡ doc_of self.entry · doc_of other.entry) }
    {
        if let Document::Nil = &self {
            return Ok(other);
        }
        if let Document::Nil = &other {
            return Ok(self);
        }
        let mut docs = self.into_list(alloc)?;
        docs.push(other)?;
        Ok(Document::Seq(docs))
    }

    // The documents of a sequence, or this document alone.
    fn into_list(self, alloc: Global) -> Result<Vec<Document<'src>>, AllocError>
        ensures { IfOk result (λ v. docs_of v.items ≡ doc_of self.entry) }
    {
        match self {
            Document::Seq(docs) => Ok(docs),
            alone => {
                let mut docs = Vec::with_capacity(alloc, 2)?;
                docs.push(alone)?;
                Ok(docs)
            }
        }
    }

    /// This document, its breaks indented by `n` more columns.
    pub fn nest(self, alloc: Global, n: isize) -> Result<Document<'src>, AllocError>
        ensures { IfOk result (λ d. doc_of d ≡ nest n (doc_of self.entry)) }
    {
        Ok(Document::Nest(n, Box::new(alloc, self)?))
    }

    /// This document, laid out flat as a whole if it fits.
    pub fn group(self, alloc: Global) -> Result<Document<'src>, AllocError>
        ensures { IfOk result (λ d. doc_of d ≡ group (doc_of self.entry)) }
    {
        Ok(Document::Group(Box::new(alloc, self)?))
    }
}

impl<'src> Clone for Document<'src> {
    ghost is_clone = { λ d e. doc_of e ≡ doc_of d };

    fn clone(&self) -> Result<Document<'src>, AllocError> {
        copy(self)
    }
}

impl Drop for Document<'_> {
    fn drop(mut self) {
        loop {
            match self {
                Document::Nil
                | Document::Text(_)
                | Document::Line
                | Document::LineOrNil
                | Document::Hard => return,
                Document::Seq(docs) => {
                    release_all(docs);
                    return;
                }
                Document::Nest(_, inner) => self = Box::into_inner(inner),
                Document::Group(inner) => self = Box::into_inner(inner),
            }
        }
    }
}

/// A copy, made with the allocators of the document's own parts.
fn copy<'src>(doc: &Document<'src>) -> Result<Document<'src>, AllocError>
    ensures { IfOk result (λ d. doc_of d ≡ doc_of doc.now) }
{
    match doc {
        Document::Nil => Ok(Document::Nil),
        Document::Text(s) => Ok(Document::Text(s)),
        Document::Line => Ok(Document::Line),
        Document::LineOrNil => Ok(Document::LineOrNil),
        Document::Hard => Ok(Document::Hard),
        Document::Seq(docs) => {
            let mut all = Vec::with_capacity(*docs.allocator(), docs.len())?;
            for d in docs {
                all.push(copy(d)?)?;
            }
            Ok(Document::Seq(all))
        }
        Document::Nest(n, inner) => {
            let inside = copy(inner)?;
            Ok(Document::Nest(*n, Box::new(*Box::allocator(inner), inside)?))
        }
        Document::Group(inner) => {
            let inside = copy(inner)?;
            Ok(Document::Group(Box::new(*Box::allocator(inner), inside)?))
        }
    }
}

/// The documents one after the other, with a copy of `sep` between neighbours. Without documents it is `Nil`.
pub fn intersperse<'src>(
    alloc: Global,
    docs: Vec<Document<'src>>,
    sep: &Document<'src>,
) -> Result<Document<'src>, AllocError>
    ensures { IfOk result (λ d. doc_of d ≡ interspersed (doc_of sep.now) (map doc_of docs.entry.items)) }
{
    let mut all = Vec::new(alloc);
    for d in docs {
        if !all.is_empty() {
            all.push(sep.clone()?)?;
        }
        all.push(d)?;
    }
    Ok(Document::Seq(all))
}

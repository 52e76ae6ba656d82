//! The marks of a document, one after the other: from the first to the last, or from the last to the first.
ghost use Rattle.std.specs.Prelude.{◌≡◌, ◌+◌, ◌≤◌, [], ◌∷◌, ◌++◌, None, IfOk, OnOk};
ghost use Rattle.cedar_layout.specs.Nodes.{nodes, nodes_of_all};
ghost use Rattle.cedar_layout.specs.Value.{doc_of, docs_of};
ghost use Rattle.cedar_print.specs.Marks.{mark_of};
ghost use Rattle.cedar_print.specs.Inside.Walked.{marks_in, marks_in_option, marks_ahead, marks_behind, nodes_pending};

use crate::mark::{Indent, Mark};
use cedar_layout::layout::{Document, Steps};
use std::alloc::{AllocError, Global};
use std::sync::ledger::Ledger;

/// What is still to be walked over.
#[derive(Clone, Copy)]
pub(crate) enum Pending<'a, 'src> {
    /// A document.
    Document(&'a Document<'src>),
    /// The other end of a nest or of a group.
    Mark(Mark<'src>),
}

/// A walk from the first mark of a document to the last. The last of what is pending is walked over next.
#[derive(Drop)]
pub(crate) struct Forward<'a, 'src> {
    pub pending: Vec<Pending<'a, 'src>>,
}

impl<'a, 'src> Forward<'a, 'src> {
    /// Before the first mark of a document.
    pub(crate) fn new(
        alloc: Global,
        doc: &'a Document<'src>,
    ) -> Result<Forward<'a, 'src>, AllocError>
        ensures marks { IfOk result (λ w. marks_ahead w.pending.items ≡ marks_in (doc_of doc.now)) }
        ensures nodes { IfOk result (λ w. nodes_pending w.pending.items ≡ nodes doc.now) }
    {
        let mut pending = Vec::new(alloc);
        pending.push(Pending::Document(doc))?;
        Ok(Forward { pending })
    }

    /// Takes the next mark, and counts the cases of documents that are taken up for it.
    pub(crate) fn next<L: Ledger>(
        &mut self,
        steps: &mut Steps<L>,
    ) -> Result<Option<Mark<'src>>, AllocError>
        ensures marks { IfOk result (λ m. marks_ahead self.old.pending.items ≡ marks_in_option m ++ marks_ahead self.new.pending.items) }
        ensures end { IfOk result (λ m. m ≡ None → self.new.pending.items ≡ []) }
        ensures steps { OnOk result (steps.new + nodes_pending self.new.pending.items ≡ steps.old + nodes_pending self.old.pending.items) }
        ensures least { steps.old ≤ steps.new }
        ensures most { steps.new ≤ steps.old + nodes_pending self.old.pending.items }
    {
        while let Some(next) = self.pending.pop() {
            match next {
                Pending::Mark(mark) => return Ok(Some(mark)),
                Pending::Document(doc) => {
                    steps.tick();
                    if let Some(mark) = self.open(doc)? {
                        return Ok(Some(mark));
                    }
                }
            }
        }
        Ok(None)
    }

    /// Takes the first mark of a document, if it begins with one of its own. What follows that is pending.
    fn open(&mut self, doc: &'a Document<'src>) -> Result<Option<Mark<'src>>, AllocError>
        ensures marks { IfOk result (λ m. marks_in_option m ++ marks_ahead self.new.pending.items ≡ marks_in (doc_of doc.now) ++ marks_ahead self.old.pending.items) }
        ensures nodes { OnOk result (nodes_pending self.new.pending.items + 1 ≡ nodes_pending self.old.pending.items + nodes doc.now) }
    {
        match doc {
            Document::Nil => Ok(None),
            Document::Text(text) => Ok(Some(Mark::Text(text))),
            Document::Line => Ok(Some(Mark::Line)),
            Document::LineOrNil => Ok(Some(Mark::LineOrNil)),
            Document::Hard => Ok(Some(Mark::Hard)),
            Document::Seq(docs) => {
                self.push_all(docs)?;
                Ok(None)
            }
            Document::Nest(n, inner) => {
                self.push_inner(inner, Mark::EndNest)?;
                Ok(Some(Mark::Nest(Indent { columns: *n })))
            }
            Document::Group(inner) => {
                self.push_inner(inner, Mark::EndGroup)?;
                Ok(Some(Mark::Begin))
            }
        }
    }

    /// Has documents walked over next, from the first to the last.
    fn push_all(&mut self, docs: &'a [Document<'src>]) -> Result<(), AllocError>
        ensures marks { OnOk result (marks_ahead self.new.pending.items ≡ marks_in (docs_of docs.now) ++ marks_ahead self.old.pending.items) }
        ensures nodes { OnOk result (nodes_pending self.new.pending.items ≡ nodes_pending self.old.pending.items + nodes_of_all docs.now) }
    {
        for i in (0..docs.len()).rev() {
            self.pending.push(Pending::Document(&docs[i]))?;
        }
        Ok(())
    }

    /// Has a document walked over next, and then this mark.
    fn push_inner(&mut self, doc: &'a Document<'src>, end: Mark<'src>) -> Result<(), AllocError>
        ensures marks { OnOk result (marks_ahead self.new.pending.items ≡ marks_in (doc_of doc.now) ++ mark_of end.entry ∷ marks_ahead self.old.pending.items) }
        ensures nodes { OnOk result (nodes_pending self.new.pending.items ≡ nodes_pending self.old.pending.items + nodes doc.now) }
    {
        self.pending.push(Pending::Mark(end))?;
        self.pending.push(Pending::Document(doc))?;
        Ok(())
    }
}

/// A walk from the last mark of a document to the first. The last of what is pending is walked over next.
#[derive(Drop)]
pub(crate) struct Backward<'a, 'src> {
    pub pending: Vec<Pending<'a, 'src>>,
}

impl<'a, 'src> Backward<'a, 'src> {
    /// After the last mark of a document.
    pub(crate) fn new(
        alloc: Global,
        doc: &'a Document<'src>,
    ) -> Result<Backward<'a, 'src>, AllocError>
        ensures marks { IfOk result (λ w. marks_behind w.pending.items ≡ marks_in (doc_of doc.now)) }
        ensures nodes { IfOk result (λ w. nodes_pending w.pending.items ≡ nodes doc.now) }
    {
        let mut pending = Vec::new(alloc);
        pending.push(Pending::Document(doc))?;
        Ok(Backward { pending })
    }

    /// Takes the mark before, and counts the cases of documents that are taken up for it.
    pub(crate) fn next<L: Ledger>(
        &mut self,
        steps: &mut Steps<L>,
    ) -> Result<Option<Mark<'src>>, AllocError>
        ensures marks { IfOk result (λ m. marks_behind self.old.pending.items ≡ marks_behind self.new.pending.items ++ marks_in_option m) }
        ensures end { IfOk result (λ m. m ≡ None → self.new.pending.items ≡ []) }
        ensures steps { OnOk result (steps.new + nodes_pending self.new.pending.items ≡ steps.old + nodes_pending self.old.pending.items) }
        ensures least { steps.old ≤ steps.new }
        ensures most { steps.new ≤ steps.old + nodes_pending self.old.pending.items }
    {
        while let Some(next) = self.pending.pop() {
            match next {
                Pending::Mark(mark) => return Ok(Some(mark)),
                Pending::Document(doc) => {
                    steps.tick();
                    if let Some(mark) = self.open(doc)? {
                        return Ok(Some(mark));
                    }
                }
            }
        }
        Ok(None)
    }

    /// Takes the last mark of a document, if it ends with one of its own. What precedes that is pending.
    fn open(&mut self, doc: &'a Document<'src>) -> Result<Option<Mark<'src>>, AllocError>
        ensures marks { IfOk result (λ m. marks_behind self.new.pending.items ++ marks_in_option m ≡ marks_behind self.old.pending.items ++ marks_in (doc_of doc.now)) }
        ensures nodes { OnOk result (nodes_pending self.new.pending.items + 1 ≡ nodes_pending self.old.pending.items + nodes doc.now) }
    {
        match doc {
            Document::Nil => Ok(None),
            Document::Text(text) => Ok(Some(Mark::Text(text))),
            Document::Line => Ok(Some(Mark::Line)),
            Document::LineOrNil => Ok(Some(Mark::LineOrNil)),
            Document::Hard => Ok(Some(Mark::Hard)),
            Document::Seq(docs) => {
                self.push_all(docs)?;
                Ok(None)
            }
            Document::Nest(n, inner) => {
                self.push_inner(Mark::Nest(Indent { columns: *n }), inner)?;
                Ok(Some(Mark::EndNest))
            }
            Document::Group(inner) => {
                self.push_inner(Mark::Begin, inner)?;
                Ok(Some(Mark::EndGroup))
            }
        }
    }

    /// Has documents walked over next, from the last to the first.
    fn push_all(&mut self, docs: &'a [Document<'src>]) -> Result<(), AllocError>
        ensures marks { OnOk result (marks_behind self.new.pending.items ≡ marks_behind self.old.pending.items ++ marks_in (docs_of docs.now)) }
        ensures nodes { OnOk result (nodes_pending self.new.pending.items ≡ nodes_pending self.old.pending.items + nodes_of_all docs.now) }
    {
        for doc in docs {
            self.pending.push(Pending::Document(doc))?;
        }
        Ok(())
    }

    /// Has a document walked over next, and then this mark.
    fn push_inner(&mut self, begin: Mark<'src>, doc: &'a Document<'src>) -> Result<(), AllocError>
        ensures marks { OnOk result (marks_behind self.new.pending.items ≡ marks_behind self.old.pending.items ++ mark_of begin.entry ∷ marks_in (doc_of doc.now)) }
        ensures nodes { OnOk result (nodes_pending self.new.pending.items ≡ nodes_pending self.old.pending.items + nodes doc.now) }
    {
        self.pending.push(Pending::Mark(begin))?;
        self.pending.push(Pending::Document(doc))?;
        Ok(())
    }
}

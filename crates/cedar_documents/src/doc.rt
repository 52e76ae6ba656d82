//! The document of each node: its tokens, each between its comments, with the places where a line may break.
#![tactic(auto, using(crate::proofs::Kept::all_kept))]

ghost use Rattle.std.specs.Prelude.{◌≡◌, ℤ, List, [], Some, Ok, codes, true, IfOk, is_some, map};
ghost use Rattle.cedar_grammar.specs.Texts.{greatest_depth};
ghost use Rattle.cedar_grammar.specs.Trees.{Label, leaf, none};
ghost use Rattle.cedar_layout.specs.Layout as layout;
ghost use Rattle.cedar_layout.specs.Lookups.{AreInOrder, Shown};
ghost use Rattle.cedar_layout.specs.Value.{doc_of};
ghost use Rattle.cedar_grammar.specs.Erased as erased;
ghost use Rattle.cedar_grammar.specs.NodeLists as lists;
ghost use Rattle.cedar_writer.specs.NodeRules.{lang_of};
ghost use Rattle.cedar_documents.specs.Found.{has_its_tokens, places};
ghost use Rattle.cedar_documents.specs.Items.{items_of, listed};
ghost use Rattle.cedar_documents.specs.Kept.{KeepsTokens};
ghost use Rattle.cedar_documents.specs.ShownNodes.{IsDocumentOf, IsMadeOf, IsWrittenAs, ShowsPart};
ghost use Rattle.cedar_documents.specs.Taking.{BeginsAt, by_value, own};

use crate::config::Context;
use crate::document::to_document;
use crate::expressions::{
    list_access, list_add, list_and, list_expr, list_init, list_member, list_mult, list_or,
    list_parts, list_primary, list_relation, list_unary,
};
use crate::items::Item;
pub use crate::laws::{every_gap_holds, raw_layouts_read_back};
use crate::names::{list_ident, list_literal, list_name, list_ref, list_slot, list_str};
use crate::policies::{list_annotation, list_cond, list_policy, list_variable};
use crate::take::{OwnToken, has_all, take_tokens};
use crate::words::add_op_text;
use cedar_grammar::MAX_NESTING;
use cedar_grammar::tree::{
    Add, AddOp, And, Annotation, Cond, Expr, Ident, Literal, MemAccess, Member, Mult, MultOp, Name,
    Node, Or, Policy, Primary, RecInit, Ref, Relation, Slot, Str, Unary, VariableDef,
};
use cedar_layout::layout::Document;
use cedar_print::mark::{Indent, Mark};
use cedar_reading::token::Token;
use cedar_tokens::kind::kind_of;
use cedar_writer::node::{Line, write_node};
use std::alloc::{AllocError, Global};

/// A part of a policy that has a document.
///
/// The comments of its tokens move from the context's tokens into the document. The context's tokens are in order:
/// `utils::in_order` checks it.
pub trait Doc<'src> {
    /// Whether this part is made of these tokens, and what its document is at an indentation.
    ghost is_shown: { Self → ℤ → List Shown → layout.Doc → Type 0 };

    /// The nodes of this part.
    ghost nodes: { Self → erased.Erased };

    /// The document of this part: the one that the line of the written grammar has for its tokens, with the comments that the
    /// context holds at entry. Afterwards these tokens have no comments, and every other token is unchanged. This holds for a
    /// part whose own tokens are consecutive among the context's (`is_shown`), as those of any part of a text are. A part
    /// built by hand that its line can't read gets its tokens with a space between neighbours, each between its comments.
    ///
    /// Returns `None` if and only if no token starts where an identifier, a string, a literal or a slot in it does, or if
    /// the number of tokens between the start of signs and their member isn't the number of these signs. This never
    /// happens if the part's own tokens are consecutive. After `None` or a refusal, tokens and spans are unchanged, the
    /// leading lines and trailing text of each token are unchanged or taken, and the context is of no further use.
    fn to_doc(
        &self,
        alloc: Global,
        context: &mut Context<'_, 'src>,
    ) -> Result<Option<Document<'src>>, AllocError>
        requires { AreInOrder context.old.tokens.items }
        ensures order { AreInOrder context.new.tokens.items }
        ensures kept { KeepsTokens context.old.tokens.items context.new.tokens.items }
        ensures config { context.new.config ≡ context.old.config }
        ensures none { IfOk result (λ doc. is_some doc ≡ has_its_tokens (places context.old.tokens.items) (nodes self.now)) }
        ensures shows { (ts : List Shown) (doc : layout.Doc) → is_shown self.now context.old.config.now.indent_width ts doc → ShowsPart result context.old.tokens.items context.new.tokens.items ts doc };
}

// The tokens that were taken, as the writer reads them.
fn as_tokens<'t, 'src>(
    alloc: Global,
    taken: &'t [OwnToken<'src>],
) -> Result<Vec<Token<'t, 'src>>, AllocError>
    ensures { IfOk result (λ v. v.items ≡ map own taken.now) }
{
    let mut tokens = Vec::with_capacity(alloc, taken.len())?;
    for token in taken {
        tokens.push(as_token(token))?;
    }
    Ok(tokens)
}

fn as_token<'t, 'src>(token: &'t OwnToken<'src>) -> Token<'t, 'src>
    ensures { result ≡ own token.now }
{
    Token::with_lines(
        kind_of(token.text),
        token.text,
        token.comment.leading_comment(),
        token.comment.trailing_comment(),
    )
}

// The document that a line has for the tokens of these items; if it can't read them, that of the tokens with spaces between.
fn document_of<'src>(
    alloc: Global,
    context: &mut Context<'_, 'src>,
    items: &[Item<'src>],
    line: Line,
) -> Result<Option<Document<'src>>, AllocError>
    requires { AreInOrder context.old.tokens.items }
    ensures order { AreInOrder context.new.tokens.items }
    ensures kept { KeepsTokens context.old.tokens.items context.new.tokens.items }
    ensures config { context.new.config ≡ context.old.config }
    ensures none { (nodes : erased.Erased) → items_of items.now ≡ listed nodes → IfOk result (λ doc. is_some doc ≡ has_its_tokens (places context.old.tokens.items) nodes) }
    ensures shows { (nodes : erased.Erased) (ts : List Shown) (doc : layout.Doc) → items_of items.now ≡ listed nodes → BeginsAt (listed nodes) → IsMadeOf nodes ts → IsDocumentOf (lang_of context.old.config.now.indent_width greatest_depth line) (map by_value ts) doc → ShowsPart result context.old.tokens.items context.new.tokens.items ts doc }
{
    if !has_all(items, &context.tokens) {
        return Ok(None);
    }
    let taken = take_tokens(alloc, items, context.tokens.as_mut_slice())?;
    let tokens = as_tokens(alloc, &taken)?;
    let indent = Indent {
        columns: context.config.indent_width,
    };
    Ok(Some(write(alloc, &tokens, line, indent)?))
}

// The document that a line has for these tokens, or else that of the tokens with spaces between.
fn write<'src>(
    alloc: Global,
    tokens: &[Token<'_, 'src>],
    line: Line,
    indent: Indent,
) -> Result<Document<'src>, AllocError>
    ensures { (doc : layout.Doc) → IsDocumentOf (lang_of indent.columns greatest_depth line) tokens.now doc → IfOk result (λ d. doc_of d ≡ doc) }
{
    let mut marks = Vec::new(alloc);
    if write_node(tokens, &mut marks, line, indent, MAX_NESTING)? {
        return to_document(alloc, &marks);
    }
    write_node(tokens, &mut marks, Line::Tokens, indent, MAX_NESTING)?;
    to_document(alloc, &marks)
}

impl<'src> Doc<'src> for Node<Policy<'src>> {
    ghost nodes = { λ n. erased.node Label.policy n.span (erased.policy_parts n.inner) none };

    ghost is_shown = { λ n. IsWrittenAs Label.policy (erased.node Label.policy n.span (erased.policy_parts n.inner) none) };

    fn to_doc(
        &self,
        alloc: Global,
        context: &mut Context<'_, 'src>,
    ) -> Result<Option<Document<'src>>, AllocError> {
        let mut items = Vec::new(alloc);
        list_policy(self, &mut items)?;
        document_of(alloc, context, &items, Line::Policy)
    }
}

impl<'src> Doc<'src> for Node<Annotation<'src>> {
    ghost nodes = { λ n. erased.node Label.annotation n.span (erased.annotation_parts n.inner) none };

    ghost is_shown = { λ n. IsWrittenAs Label.annotation (erased.node Label.annotation n.span (erased.annotation_parts n.inner) none) };

    fn to_doc(
        &self,
        alloc: Global,
        context: &mut Context<'_, 'src>,
    ) -> Result<Option<Document<'src>>, AllocError> {
        let mut items = Vec::new(alloc);
        list_annotation(self, &mut items)?;
        document_of(alloc, context, &items, Line::Annotation)
    }
}

impl<'src> Doc<'src> for Node<VariableDef<'src>> {
    ghost nodes = { λ n. erased.node Label.variable n.span (erased.variable_parts n.inner) none };

    ghost is_shown = { λ n. IsWrittenAs Label.variable (erased.node Label.variable n.span (erased.variable_parts n.inner) none) };

    fn to_doc(
        &self,
        alloc: Global,
        context: &mut Context<'_, 'src>,
    ) -> Result<Option<Document<'src>>, AllocError> {
        let mut items = Vec::new(alloc);
        list_variable(self, &mut items)?;
        document_of(alloc, context, &items, Line::Variable)
    }
}

impl<'src> Doc<'src> for Node<Cond<'src>> {
    ghost nodes = { λ n. erased.node Label.condition n.span (erased.cond_parts n.inner) none };

    ghost is_shown = { λ n. IsWrittenAs Label.condition (erased.node Label.condition n.span (erased.cond_parts n.inner) none) };

    fn to_doc(
        &self,
        alloc: Global,
        context: &mut Context<'_, 'src>,
    ) -> Result<Option<Document<'src>>, AllocError> {
        let mut items = Vec::new(alloc);
        list_cond(self, &mut items)?;
        document_of(alloc, context, &items, Line::Condition)
    }
}

impl<'src> Doc<'src> for Node<Expr<'src>> {
    ghost nodes = { λ n. erased.node Label.expr n.span (erased.expr_parts n.inner) none };

    ghost is_shown = { λ n. IsWrittenAs Label.expr (erased.node Label.expr n.span (erased.expr_parts n.inner) none) };

    fn to_doc(
        &self,
        alloc: Global,
        context: &mut Context<'_, 'src>,
    ) -> Result<Option<Document<'src>>, AllocError> {
        let mut items = Vec::new(alloc);
        list_expr(self, &mut items)?;
        document_of(alloc, context, &items, Line::Expr)
    }
}

impl<'src> Doc<'src> for Node<Or<'src>> {
    ghost nodes = { λ n. erased.node Label.or n.span (erased.or_parts n.inner) none };

    ghost is_shown = { λ n. IsWrittenAs Label.or (erased.node Label.or n.span (erased.or_parts n.inner) none) };

    fn to_doc(
        &self,
        alloc: Global,
        context: &mut Context<'_, 'src>,
    ) -> Result<Option<Document<'src>>, AllocError> {
        let mut items = Vec::new(alloc);
        list_or(self, &mut items)?;
        document_of(alloc, context, &items, Line::Or)
    }
}

impl<'src> Doc<'src> for Node<And<'src>> {
    ghost nodes = { λ n. erased.node Label.and n.span (lists.and_parts n.inner) none };

    ghost is_shown = { λ n. IsWrittenAs Label.and (erased.node Label.and n.span (lists.and_parts n.inner) none) };

    fn to_doc(
        &self,
        alloc: Global,
        context: &mut Context<'_, 'src>,
    ) -> Result<Option<Document<'src>>, AllocError> {
        let mut items = Vec::new(alloc);
        list_and(self, &mut items)?;
        document_of(alloc, context, &items, Line::And)
    }
}

impl<'src> Doc<'src> for Node<Relation<'src>> {
    ghost nodes = { λ n. erased.node Label.relation n.span (erased.relation_parts n.inner) none };

    ghost is_shown = { λ n. IsWrittenAs Label.relation (erased.node Label.relation n.span (erased.relation_parts n.inner) none) };

    fn to_doc(
        &self,
        alloc: Global,
        context: &mut Context<'_, 'src>,
    ) -> Result<Option<Document<'src>>, AllocError> {
        let mut items = Vec::new(alloc);
        list_relation(self, &mut items)?;
        document_of(alloc, context, &items, Line::Relation)
    }
}

impl<'src> Doc<'src> for Node<Add<'src>> {
    ghost nodes = { λ n. erased.node Label.add n.span (erased.add_parts n.inner) none };

    ghost is_shown = { λ n. IsWrittenAs Label.add (erased.node Label.add n.span (erased.add_parts n.inner) none) };

    fn to_doc(
        &self,
        alloc: Global,
        context: &mut Context<'_, 'src>,
    ) -> Result<Option<Document<'src>>, AllocError> {
        let mut items = Vec::new(alloc);
        list_add(self, &mut items)?;
        document_of(alloc, context, &items, Line::Add)
    }
}

impl<'src> Doc<'src> for Node<Mult<'src>> {
    ghost nodes = { λ n. erased.node Label.mult n.span (erased.mult_parts n.inner) none };

    ghost is_shown = { λ n. IsWrittenAs Label.mult (erased.node Label.mult n.span (erased.mult_parts n.inner) none) };

    fn to_doc(
        &self,
        alloc: Global,
        context: &mut Context<'_, 'src>,
    ) -> Result<Option<Document<'src>>, AllocError> {
        let mut items = Vec::new(alloc);
        list_mult(self, &mut items)?;
        document_of(alloc, context, &items, Line::Mult)
    }
}

impl<'src> Doc<'src> for AddOp {
    ghost nodes = { λ o. none };

    ghost is_shown = { λ o i ts doc. (ts ≡ []) × (doc ≡ layout.text (erased.addop_text o)) };

    fn to_doc(
        &self,
        _alloc: Global,
        _context: &mut Context<'_, 'src>,
    ) -> Result<Option<Document<'src>>, AllocError>
        requires { AreInOrder _context.old.tokens.items }
        ensures order { AreInOrder _context.new.tokens.items }
        ensures kept { KeepsTokens _context.old.tokens.items _context.new.tokens.items }
        ensures config { _context.new.config ≡ _context.old.config }
        ensures none { IfOk result (λ doc. is_some doc ≡ true) }
        ensures shows { (ts : List Shown) (doc : layout.Doc) → (ts ≡ []) × (doc ≡ layout.text (erased.addop_text self.now)) → ShowsPart result _context.old.tokens.items _context.new.tokens.items ts doc }
        ensures text { (d : Document) × (result ≡ Ok (Some d)) × (doc_of d ≡ layout.text (erased.addop_text self.now)) }
        ensures context { _context.new ≡ _context.old }
    {
        Ok(Some(Document::Text(add_op_text(*self))))
    }
}

impl<'src> Doc<'src> for MultOp {
    ghost nodes = { λ o. none };

    ghost is_shown = { λ o i ts doc. (ts ≡ []) × (doc ≡ layout.text (codes "*")) };

    fn to_doc(
        &self,
        _alloc: Global,
        _context: &mut Context<'_, 'src>,
    ) -> Result<Option<Document<'src>>, AllocError>
        requires { AreInOrder _context.old.tokens.items }
        ensures order { AreInOrder _context.new.tokens.items }
        ensures kept { KeepsTokens _context.old.tokens.items _context.new.tokens.items }
        ensures config { _context.new.config ≡ _context.old.config }
        ensures none { IfOk result (λ doc. is_some doc ≡ true) }
        ensures shows { (ts : List Shown) (doc : layout.Doc) → (ts ≡ []) × (doc ≡ layout.text (codes "*")) → ShowsPart result _context.old.tokens.items _context.new.tokens.items ts doc }
        ensures text { (d : Document) × (result ≡ Ok (Some d)) × (doc_of d ≡ layout.text (codes "*")) }
        ensures context { _context.new ≡ _context.old }
    {
        Ok(Some(Document::Text("*")))
    }
}

impl<'src> Doc<'src> for Node<Unary<'src>> {
    ghost nodes = { λ n. erased.node Label.unary n.span (erased.unary_parts n.inner) none };

    ghost is_shown = { λ n. IsWrittenAs Label.unary (erased.node Label.unary n.span (erased.unary_parts n.inner) none) };

    fn to_doc(
        &self,
        alloc: Global,
        context: &mut Context<'_, 'src>,
    ) -> Result<Option<Document<'src>>, AllocError> {
        let mut items = Vec::new(alloc);
        list_unary(self, &mut items)?;
        document_of(alloc, context, &items, Line::Unary)
    }
}

impl<'src> Doc<'src> for Member<'src> {
    ghost nodes = { λ m. lists.member_parts m };

    ghost is_shown = { λ m. IsWrittenAs Label.member (lists.member_parts m) };

    fn to_doc(
        &self,
        alloc: Global,
        context: &mut Context<'_, 'src>,
    ) -> Result<Option<Document<'src>>, AllocError> {
        let mut items = Vec::new(alloc);
        list_parts(self, &mut items)?;
        document_of(alloc, context, &items, Line::Member)
    }
}

impl<'src> Doc<'src> for Node<MemAccess<'src>> {
    ghost nodes = { λ n. erased.node Label.access n.span (erased.access_parts n.inner) none };

    ghost is_shown = { λ n. IsWrittenAs Label.access (erased.node Label.access n.span (erased.access_parts n.inner) none) };

    fn to_doc(
        &self,
        alloc: Global,
        context: &mut Context<'_, 'src>,
    ) -> Result<Option<Document<'src>>, AllocError> {
        let mut items = Vec::new(alloc);
        list_access(self, &mut items)?;
        document_of(alloc, context, &items, Line::Access)
    }
}

impl<'src> Doc<'src> for Node<Primary<'src>> {
    ghost nodes = { λ n. erased.node Label.primary n.span (erased.primary_parts n.inner) none };

    ghost is_shown = { λ n. IsWrittenAs Label.primary (erased.node Label.primary n.span (erased.primary_parts n.inner) none) };

    fn to_doc(
        &self,
        alloc: Global,
        context: &mut Context<'_, 'src>,
    ) -> Result<Option<Document<'src>>, AllocError> {
        let mut items = Vec::new(alloc);
        list_primary(self, &mut items)?;
        document_of(alloc, context, &items, Line::Primary)
    }
}

impl<'src> Doc<'src> for Node<RecInit<'src>> {
    ghost nodes = { λ n. erased.node Label.rec_init n.span (lists.init_parts n.inner) none };

    ghost is_shown = { λ n. IsWrittenAs Label.rec_init (erased.node Label.rec_init n.span (lists.init_parts n.inner) none) };

    fn to_doc(
        &self,
        alloc: Global,
        context: &mut Context<'_, 'src>,
    ) -> Result<Option<Document<'src>>, AllocError> {
        let mut items = Vec::new(alloc);
        list_init(self, &mut items)?;
        document_of(alloc, context, &items, Line::Init)
    }
}

impl<'src> Doc<'src> for Node<Name<'src>> {
    ghost nodes = { λ n. erased.name_tree n none };

    ghost is_shown = { λ n. IsWrittenAs Label.name (erased.name_tree n none) };

    fn to_doc(
        &self,
        alloc: Global,
        context: &mut Context<'_, 'src>,
    ) -> Result<Option<Document<'src>>, AllocError> {
        let mut items = Vec::new(alloc);
        list_name(self, &mut items)?;
        document_of(alloc, context, &items, Line::Name)
    }
}

impl<'src> Doc<'src> for Node<Ref<'src>> {
    ghost nodes = { λ n. erased.ref_tree n none };

    ghost is_shown = { λ n. IsWrittenAs Label.ref (erased.ref_tree n none) };

    fn to_doc(
        &self,
        alloc: Global,
        context: &mut Context<'_, 'src>,
    ) -> Result<Option<Document<'src>>, AllocError> {
        let mut items = Vec::new(alloc);
        list_ref(self, &mut items)?;
        document_of(alloc, context, &items, Line::Ref)
    }
}

impl<'src> Doc<'src> for Node<Ident<'src>> {
    ghost nodes = { λ n. erased.ident_tree n none };

    ghost is_shown = { λ n. IsWrittenAs Label.ident (erased.ident_tree n none) };

    fn to_doc(
        &self,
        alloc: Global,
        context: &mut Context<'_, 'src>,
    ) -> Result<Option<Document<'src>>, AllocError> {
        let mut items = Vec::new(alloc);
        list_ident(self, &mut items)?;
        document_of(alloc, context, &items, Line::Tokens)
    }
}

impl<'src> Doc<'src> for Node<Str<'src>> {
    ghost nodes = { λ n. erased.str_tree n none };

    ghost is_shown = { λ n. IsWrittenAs Label.str (erased.str_tree n none) };

    fn to_doc(
        &self,
        alloc: Global,
        context: &mut Context<'_, 'src>,
    ) -> Result<Option<Document<'src>>, AllocError> {
        let mut items = Vec::new(alloc);
        list_str(self, &mut items)?;
        document_of(alloc, context, &items, Line::Tokens)
    }
}

impl<'src> Doc<'src> for Node<Literal<'src>> {
    ghost nodes = { λ n. erased.node (erased.variant_label n.inner) n.span (leaf (erased.literal_text n.inner) none) none };

    ghost is_shown = { λ n. IsWrittenAs (erased.variant_label n.inner) (erased.node (erased.variant_label n.inner) n.span (leaf (erased.literal_text n.inner) none) none) };

    fn to_doc(
        &self,
        alloc: Global,
        context: &mut Context<'_, 'src>,
    ) -> Result<Option<Document<'src>>, AllocError> {
        let mut items = Vec::new(alloc);
        list_literal(self, &mut items)?;
        document_of(alloc, context, &items, Line::Tokens)
    }
}

impl<'src> Doc<'src> for Node<Slot> {
    ghost nodes = { λ n. erased.node Label.slot n.span (leaf (erased.slot_text n.inner) none) none };

    ghost is_shown = { λ n. IsWrittenAs Label.slot (erased.node Label.slot n.span (leaf (erased.slot_text n.inner) none) none) };

    fn to_doc(
        &self,
        alloc: Global,
        context: &mut Context<'_, 'src>,
    ) -> Result<Option<Document<'src>>, AllocError> {
        let mut items = Vec::new(alloc);
        list_slot(self, &mut items)?;
        document_of(alloc, context, &items, Line::Tokens)
    }
}

impl<'src> Doc<'src> for Ident<'src> {
    ghost nodes = { λ n. none };

    ghost is_shown = { λ n i ts doc. (ts ≡ []) × (doc ≡ layout.text n.0.now) };

    fn to_doc(
        &self,
        _alloc: Global,
        _context: &mut Context<'_, 'src>,
    ) -> Result<Option<Document<'src>>, AllocError>
        requires { AreInOrder _context.old.tokens.items }
        ensures order { AreInOrder _context.new.tokens.items }
        ensures kept { KeepsTokens _context.old.tokens.items _context.new.tokens.items }
        ensures config { _context.new.config ≡ _context.old.config }
        ensures none { IfOk result (λ doc. is_some doc ≡ true) }
        ensures shows { (ts : List Shown) (doc : layout.Doc) → (ts ≡ []) × (doc ≡ layout.text self.now.0.now) → ShowsPart result _context.old.tokens.items _context.new.tokens.items ts doc }
        ensures text { (d : Document) × (result ≡ Ok (Some d)) × (doc_of d ≡ layout.text self.now.0.now) }
        ensures context { _context.new ≡ _context.old }
    {
        Ok(Some(Document::Text(self.0)))
    }
}

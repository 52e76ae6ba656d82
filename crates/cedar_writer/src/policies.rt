//! Policies. Each function is given the indentation, in columns, and how many ifs and brackets an expression may nest.
ghost use Rattle.std.specs.Prelude.{◌≡◌};
ghost use Rattle.cedar_writer.specs.Rules.{star};
ghost use Rattle.cedar_writer.specs.Lines.{block, cond};
ghost use Rattle.cedar_writer.specs.Writing.{policy_to};
ghost use Rattle.cedar_writer.specs.Depths.{alone, around};
ghost use Rattle.cedar_writer.specs.Parts.{body, conds, head, next_cond, policy_end, scope_end};

use crate::sets::Set;
use crate::writer::Writer;
use cedar_print::mark::{Indent, Mark};
use cedar_tokens::kind::Kind;

/// How three bare variables begin.
const BARE: &[Set] = &[
    Set::Only(Kind::Principal),
    Set::Only(Kind::Comma),
    Set::Only(Kind::Action),
    Set::Only(Kind::Comma),
    Set::Only(Kind::Resource),
    Set::AfterScope,
];

impl Writer<'_, '_, '_> {
    // Policy = {Annotation} ('permit'|'forbid') '(' Principal ',' Action ',' Resource [','] ')' {Cond} ';'
    pub(crate) fn policy(&mut self, indent: Indent, depth: usize)
        ensures { self.new ≡ policy_to indent.columns depth self.old }
    {
        self.annotations();
        self.head();
        self.body(indent, depth);
    }

    // ('permit'|'forbid') '('
    fn head(&mut self)
        ensures { self.new ≡ alone head self.old }
    {
        self.lift();
        self.put(Mark::Begin);
        self.take(Set::Effect);
        self.put(Mark::Line);
        self.take(Set::Only(Kind::LParen));
        self.put(Mark::EndGroup);
    }

    // Principal ',' Action ',' Resource [','] ')' {Cond} ';'
    fn body(&mut self, indent: Indent, depth: usize)
        ensures { self.new ≡ around indent.columns depth (body indent.columns) self.old }
    {
        if self.looking(BARE) {
            self.bare_scope(indent);
            self.policy_end(indent, depth);
        } else {
            self.broken_scope(indent);
            self.policy_end(indent, depth);
        }
    }

    // [','] ')' {Cond} ';'
    #[tactic(auto, unfolding(crate::specs::Parts::policy_end))]
    fn policy_end(&mut self, indent: Indent, depth: usize)
        ensures { self.new ≡ around indent.columns depth (policy_end indent.columns) self.old }
    {
        self.last_comma();
        self.scope_end(indent, depth);
    }

    // ')' {Cond} ';'
    fn scope_end(&mut self, indent: Indent, depth: usize)
        ensures { self.new ≡ around indent.columns depth (scope_end indent.columns) self.old }
    {
        if self.second(Set::Condition) {
            self.take_then(Set::Only(Kind::RParen), Mark::Hard);
            self.conds(indent, depth);
        } else {
            self.take(Set::Only(Kind::RParen));
            self.take(Set::Only(Kind::SemiColon));
        }
    }

    // {Cond} ';', at least one
    fn conds(&mut self, indent: Indent, depth: usize)
        ensures { self.new ≡ around indent.columns depth (conds indent.columns) self.old }
    {
        self.cond(indent, depth);
        self.next_conds(indent, depth);
        self.take(Set::Only(Kind::SemiColon));
    }

    // {Cond}, after the first
    fn next_conds(&mut self, indent: Indent, depth: usize)
        ensures { self.new ≡ around indent.columns depth (star (next_cond indent.columns)) self.old }
    {
        'conds: while self.begins(Set::Condition) {
            self.next_cond(indent, depth);
        }
    }

    fn next_cond(&mut self, indent: Indent, depth: usize)
        ensures { self.new ≡ around indent.columns depth (next_cond indent.columns) self.old }
    {
        self.put(Mark::Hard);
        self.cond(indent, depth);
    }

    // Cond = ('when'|'unless') '{' Expr '}'
    pub(crate) fn cond(&mut self, indent: Indent, depth: usize)
        ensures { self.new ≡ around indent.columns depth (cond indent.columns) self.old }
    {
        self.lift();
        self.put(Mark::Begin);
        self.take_then(Set::Condition, Mark::Line);
        self.block(indent, depth);
        self.put(Mark::EndGroup);
    }

    // '{' Expr '}'
    fn block(&mut self, indent: Indent, depth: usize)
        ensures { self.new ≡ around indent.columns depth (block indent.columns) self.old }
    {
        self.take_brace(indent);
        self.lift();
        self.put(Mark::Begin);
        self.expr(indent, depth);
        self.put(Mark::EndGroup);
        self.put(Mark::EndNest);
        self.put(Mark::Line);
        self.take(Set::Only(Kind::RBrace));
        self.put(Mark::EndGroup);
    }
}

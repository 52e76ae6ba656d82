//! Expressions. Each function is given the indentation, in columns, and how many ifs and brackets may still be nested.
ghost use Rattle.std.specs.Prelude.{◌≡◌, true};
ghost use Rattle.cedar_tokens.specs.declared.kind.Kind.TheVariants as K;
ghost use Rattle.cedar_tokens.specs.Kinds.{is};
ghost use Rattle.cedar_writer.specs.Rules.{◌▸◌, inner, line, maybe, nest, star, tok};
ghost use Rattle.cedar_writer.specs.Lines.{below, init, items, parens, str};
ghost use Rattle.cedar_writer.specs.Writing.{begins, expr_to, finish};
ghost use Rattle.cedar_writer.specs.Depths.{at_depth, often_at};
ghost use Rattle.cedar_writer.specs.Parts.{access, accesses, add, after_variable, and, call, called, fields, grouped_member, if_expr, is_in, is_type, list, literal, member, mult, next_access, next_and, next_factor, next_relation, next_summand, or, reference, relation, relation_end, some_arguments, some_comparison, some_exprs, some_inits, test, unary};

use crate::sets::Set;
use crate::writer::Writer;
use cedar_print::mark::{Indent, Mark};
use cedar_tokens::kind::Kind;

impl Writer<'_, '_, '_> {
    /// Expr = 'if' Expr 'then' Expr 'else' Expr | Or
    #[cycle(rows)]
    pub(crate) fn expr(&mut self, indent: Indent, depth: usize)
        ensures { self.new ≡ expr_to indent.columns depth self.old }
    {
        if self.begins(Set::Only(Kind::If)) {
            self.if_expr(indent, depth);
        } else {
            self.or(indent, depth);
        }
    }

    // 'if' Expr 'then' Expr 'else' Expr
    #[cycle(rows)]
    fn if_expr(&mut self, indent: Indent, depth: usize)
        requires { begins (is K.If) self.old ≡ true }
        ensures { self.new ≡ at_depth indent.columns depth (if_expr indent.columns) self.old }
    {
        if depth == 0 {
            self.refuse(true);
            return;
        }
        self.put(Mark::Begin);
        self.take(Set::Only(Kind::If));
        self.below(indent, depth);
        self.put(Mark::Line);
        self.take(Set::Only(Kind::Then));
        self.below(indent, depth);
        self.put(Mark::Line);
        self.take(Set::Only(Kind::Else));
        self.below(indent, depth);
        self.put(Mark::EndGroup);
    }

    // an expression after `if`, `then` or `else`
    #[cycle(rows)]
    fn below(&mut self, indent: Indent, depth: usize)
        ensures { self.new ≡ at_depth indent.columns depth (below indent.columns) self.old }
    {
        self.put(Mark::Nest(indent));
        self.put(Mark::Line);
        self.inner(indent, depth);
        self.put(Mark::EndNest);
    }

    // an expression inside a bracket or an if
    #[cycle(rows)]
    fn inner(&mut self, indent: Indent, depth: usize)
        ensures { self.new ≡ at_depth indent.columns depth inner self.old }
    {
        if depth == 0 {
            self.refuse(true);
        } else {
            self.expr(indent, depth - 1);
        }
    }

    // Or = And {'||' And}
    #[cycle(rows)]
    #[tactic(auto, unfolding(crate::specs::Parts::or))]
    pub(crate) fn or(&mut self, indent: Indent, depth: usize)
        ensures { self.new ≡ at_depth indent.columns depth (or indent.columns) self.old }
    {
        self.and(indent, depth);
        self.next_ands(indent, depth);
    }

    // {'||' And}
    #[cycle(rows)]
    fn next_ands(&mut self, indent: Indent, depth: usize)
        ensures { self.new ≡ at_depth indent.columns depth (star (next_and indent.columns)) self.old }
    {
        'ands: while self.begins(Set::Only(Kind::Or)) {
            self.next_and(indent, depth);
        }
    }

    // '||' And
    #[cycle(rows)]
    fn next_and(&mut self, indent: Indent, depth: usize)
        ensures { self.new ≡ at_depth indent.columns depth (next_and indent.columns) self.old }
    {
        self.put(Mark::Space);
        self.take_then(Set::Only(Kind::Or), Mark::Line);
        self.and(indent, depth);
    }

    // And = Relation {'&&' Relation}
    #[cycle(rows)]
    #[tactic(auto, unfolding(crate::specs::Parts::and))]
    pub(crate) fn and(&mut self, indent: Indent, depth: usize)
        ensures { self.new ≡ at_depth indent.columns depth (and indent.columns) self.old }
    {
        self.relation(indent, depth);
        self.next_relations(indent, depth);
    }

    // {'&&' Relation}
    #[cycle(rows)]
    fn next_relations(&mut self, indent: Indent, depth: usize)
        ensures { self.new ≡ at_depth indent.columns depth (star (next_relation indent.columns)) self.old }
    {
        'relations: while self.begins(Set::Only(Kind::And)) {
            self.next_relation(indent, depth);
        }
    }

    // '&&' Relation
    #[cycle(rows)]
    fn next_relation(&mut self, indent: Indent, depth: usize)
        ensures { self.new ≡ at_depth indent.columns depth (next_relation indent.columns) self.old }
    {
        self.put(Mark::Space);
        self.take_then(Set::Only(Kind::And), Mark::Line);
        self.relation(indent, depth);
    }

    // Relation = Add [relop Add] | Add 'has' (STR | IDENT {'.' IDENT}) | Add 'like' STR | Add 'is' Path ['in' Add]
    #[cycle(rows)]
    #[tactic(auto, unfolding(crate::specs::Parts::relation))]
    pub(crate) fn relation(&mut self, indent: Indent, depth: usize)
        ensures { self.new ≡ at_depth indent.columns depth (relation indent.columns) self.old }
    {
        self.put(Mark::Begin);
        self.add(indent, depth);
        self.relation_end(indent, depth);
    }

    // what comes after the first Add of a relation
    #[cycle(rows)]
    fn relation_end(&mut self, indent: Indent, depth: usize)
        ensures { self.new ≡ at_depth indent.columns depth (relation_end indent.columns) self.old }
    {
        if self.begins(Set::Testing) {
            self.test(indent, depth);
            self.put(Mark::EndGroup);
        } else {
            self.some_comparison(indent, depth);
            self.put(Mark::EndNothing);
        }
    }

    // 'has', 'like' or 'is', and what comes after it
    #[cycle(rows)]
    fn test(&mut self, indent: Indent, depth: usize)
        ensures { self.new ≡ at_depth indent.columns depth (test indent.columns) self.old }
    {
        if self.begins(Set::Only(Kind::Has)) {
            self.has(indent);
        } else if self.begins(Set::Only(Kind::Like)) {
            self.like(indent);
        } else {
            self.is_type(indent, depth);
        }
    }

    // 'is' Path ['in' Add]
    #[cycle(rows)]
    fn is_type(&mut self, indent: Indent, depth: usize)
        ensures { self.new ≡ at_depth indent.columns depth (is_type indent.columns) self.old }
    {
        self.put(Mark::Space);
        self.take(Set::Only(Kind::Is));
        self.put(Mark::Space);
        self.put(Mark::Nest(indent));
        self.path();
        self.put(Mark::EndNest);
        self.is_in(indent, depth);
    }

    // ['in' Add]
    #[cycle(rows)]
    fn is_in(&mut self, indent: Indent, depth: usize)
        ensures { self.new ≡ at_depth indent.columns depth (is_in indent.columns) self.old }
    {
        if self.begins(Set::Only(Kind::In)) {
            self.put(Mark::Line);
            self.take(Set::Only(Kind::In));
            self.put(Mark::Space);
            self.put(Mark::Nest(indent));
            self.add(indent, depth);
            self.put(Mark::EndNest);
        }
    }

    // [relop Add]
    #[cycle(rows)]
    fn some_comparison(&mut self, indent: Indent, depth: usize)
        ensures { self.new ≡ at_depth indent.columns depth (some_comparison indent.columns) self.old }
    {
        if self.begins(Set::Comparison) {
            self.put(Mark::Space);
            self.take(Set::Comparison);
            self.put(Mark::Space);
            self.add(indent, depth);
        }
    }

    // Add = Mult {('+'|'-') Mult}
    #[cycle(rows)]
    #[tactic(auto, unfolding(crate::specs::Parts::add))]
    pub(crate) fn add(&mut self, indent: Indent, depth: usize)
        ensures { self.new ≡ at_depth indent.columns depth (add indent.columns) self.old }
    {
        self.put(Mark::Begin);
        self.mult(indent, depth);
        self.next_summands(indent, depth);
        self.put(Mark::EndGroup);
    }

    // {('+'|'-') Mult}
    #[cycle(rows)]
    fn next_summands(&mut self, indent: Indent, depth: usize)
        ensures { self.new ≡ at_depth indent.columns depth (star (next_summand indent.columns)) self.old }
    {
        'summands: while self.begins(Set::SumSign) {
            self.next_summand(indent, depth);
        }
    }

    // ('+'|'-') Mult
    #[cycle(rows)]
    fn next_summand(&mut self, indent: Indent, depth: usize)
        ensures { self.new ≡ at_depth indent.columns depth (next_summand indent.columns) self.old }
    {
        self.put(Mark::Space);
        self.take(Set::SumSign);
        self.put(Mark::Line);
        self.mult(indent, depth);
    }

    // Mult = Unary {'*' Unary}
    #[cycle(rows)]
    #[tactic(auto, unfolding(crate::specs::Parts::mult))]
    pub(crate) fn mult(&mut self, indent: Indent, depth: usize)
        ensures { self.new ≡ at_depth indent.columns depth (mult indent.columns) self.old }
    {
        self.put(Mark::Begin);
        self.unary(indent, depth);
        self.next_factors(indent, depth);
        self.put(Mark::EndGroup);
    }

    // {'*' Unary}
    #[cycle(rows)]
    fn next_factors(&mut self, indent: Indent, depth: usize)
        ensures { self.new ≡ at_depth indent.columns depth (star (next_factor indent.columns)) self.old }
    {
        'factors: while self.begins(Set::Only(Kind::Mul)) {
            self.next_factor(indent, depth);
        }
    }

    // '*' Unary
    #[cycle(rows)]
    fn next_factor(&mut self, indent: Indent, depth: usize)
        ensures { self.new ≡ at_depth indent.columns depth (next_factor indent.columns) self.old }
    {
        self.put(Mark::Space);
        self.take(Set::Only(Kind::Mul));
        self.put(Mark::Line);
        self.unary(indent, depth);
    }

    // Unary = [one to four '!', or one to four '-'] Member
    #[cycle(rows)]
    #[tactic(auto, unfolding(crate::specs::Parts::unary))]
    pub(crate) fn unary(&mut self, indent: Indent, depth: usize)
        ensures { self.new ≡ at_depth indent.columns depth (unary indent.columns) self.old }
    {
        self.some_signs();
        self.member(indent, depth);
    }

    // Member = Primary {Access} | Path '(' [Exprs] ')' {Access}
    #[cycle(rows)]
    #[tactic(auto, unfolding(crate::specs::Parts::member))]
    pub(crate) fn member(&mut self, indent: Indent, depth: usize)
        ensures { self.new ≡ at_depth indent.columns depth (member indent.columns) self.old }
    {
        self.put(Mark::Begin);
        self.grouped_member(indent, depth);
        self.put(Mark::EndGroup);
    }

    #[cycle(rows)]
    fn grouped_member(&mut self, indent: Indent, depth: usize)
        ensures { self.new ≡ at_depth indent.columns depth (grouped_member indent.columns) self.old }
    {
        if self.begins(Set::Literal) {
            self.literal(indent, depth);
            self.accesses(indent, depth);
        } else if self.begins(Set::Variable) {
            self.take(Set::Variable);
            self.after_variable(indent, depth);
        } else {
            self.take(Set::Name);
            self.reference(indent, depth);
        }
    }

    // the rest of an Entity or of a called path, or accesses
    #[cycle(rows)]
    fn after_variable(&mut self, indent: Indent, depth: usize)
        ensures { self.new ≡ at_depth indent.columns depth (after_variable indent.columns) self.old }
    {
        if self.begins(Set::Referring) {
            self.reference(indent, depth);
        } else {
            self.accesses(indent, depth);
        }
    }

    // the rest of an Entity or of a called path, after its first word, with accesses
    #[cycle(rows)]
    fn reference(&mut self, indent: Indent, depth: usize)
        ensures { self.new ≡ at_depth indent.columns depth (reference indent.columns) self.old }
    {
        self.words();
        self.reference_end(indent, depth);
    }

    #[cycle(rows)]
    fn reference_end(&mut self, indent: Indent, depth: usize)
        ensures { self.new ≡ finish (is K.DoubleColon) (at_depth indent.columns depth (str ▸ accesses indent.columns)) (at_depth indent.columns depth (called indent.columns)) self.old }
    {
        if self.begins(Set::Only(Kind::DoubleColon)) {
            self.take(Set::Only(Kind::DoubleColon));
            self.take(Set::Only(Kind::Str));
            self.accesses(indent, depth);
        } else {
            self.called(indent, depth);
        }
    }

    // '(' [Exprs] ')' {Access}
    #[cycle(rows)]
    fn called(&mut self, indent: Indent, depth: usize)
        ensures { self.new ≡ at_depth indent.columns depth (called indent.columns) self.old }
    {
        self.put(Mark::Nest(indent));
        self.call(indent, depth);
        self.next_accesses(indent, depth);
        self.put(Mark::EndNest);
    }

    // {Access}
    #[cycle(rows)]
    #[tactic(auto, unfolding(crate::specs::Parts::accesses))]
    fn accesses(&mut self, indent: Indent, depth: usize)
        ensures { self.new ≡ at_depth indent.columns depth (accesses indent.columns) self.old }
    {
        self.put(Mark::Nest(indent));
        self.some_accesses(indent, depth);
        self.put(Mark::EndNest);
    }

    #[cycle(rows)]
    fn some_accesses(&mut self, indent: Indent, depth: usize)
        ensures { self.new ≡ at_depth indent.columns depth (maybe (access indent.columns ▸ star (next_access indent.columns))) self.old }
    {
        if self.begins(Set::Accessing) {
            self.access(indent, depth);
            self.next_accesses(indent, depth);
        }
    }

    // {Access}, after the first or after a call
    #[cycle(rows)]
    fn next_accesses(&mut self, indent: Indent, depth: usize)
        ensures { self.new ≡ at_depth indent.columns depth (star (next_access indent.columns)) self.old }
    {
        'accesses: while self.begins(Set::Accessing) {
            self.next_access(indent, depth);
        }
    }

    #[cycle(rows)]
    fn next_access(&mut self, indent: Indent, depth: usize)
        ensures { self.new ≡ at_depth indent.columns depth (next_access indent.columns) self.old }
    {
        self.put(Mark::LineOrNil);
        self.access(indent, depth);
    }

    // Access = '.' IDENT ['(' [Exprs] ')'] | '[' STR ']'
    #[cycle(rows)]
    fn access(&mut self, indent: Indent, depth: usize)
        ensures { self.new ≡ at_depth indent.columns depth (access indent.columns) self.old }
    {
        if self.begins(Set::Only(Kind::Dot)) {
            self.field();
            self.some_call(indent, depth);
        } else {
            self.index();
        }
    }

    // ['(' [Exprs] ')']
    #[cycle(rows)]
    fn some_call(&mut self, indent: Indent, depth: usize)
        ensures { self.new ≡ at_depth indent.columns depth (maybe (call indent.columns)) self.old }
    {
        if self.begins(Set::Only(Kind::LParen)) {
            self.call(indent, depth);
        }
    }

    // '(' [Exprs] ')' after a path or a field
    #[cycle(rows)]
    pub(crate) fn call(&mut self, indent: Indent, depth: usize)
        ensures { self.new ≡ at_depth indent.columns depth (call indent.columns) self.old }
    {
        if !self.begins(Set::Only(Kind::LParen)) {
            self.refuse(false);
            return;
        }
        if depth == 0 {
            self.refuse(true);
            return;
        }
        self.take(Set::Only(Kind::LParen));
        self.some_arguments(indent, depth);
        self.take(Set::Only(Kind::RParen));
    }

    // [Exprs] of a call
    #[cycle(rows)]
    #[tactic(auto, unfolding(crate::specs::Parts::some_arguments))]
    fn some_arguments(&mut self, indent: Indent, depth: usize)
        ensures { self.new ≡ at_depth indent.columns depth (some_arguments indent.columns) self.old }
    {
        if self.begins(Set::Expression) {
            self.put(Mark::Nest(indent));
            self.put(Mark::LineOrNil);
            self.exprs(indent, depth);
            self.put(Mark::EndNest);
            self.put(Mark::LineOrNil);
        }
    }

    // Primary but for what begins with a word
    #[cycle(rows)]
    pub(crate) fn literal(&mut self, indent: Indent, depth: usize)
        ensures { self.new ≡ at_depth indent.columns depth (literal indent.columns) self.old }
    {
        if self.begins(Set::Boolean) {
            self.take(Set::Boolean);
        } else if self.begins(Set::Only(Kind::Number)) {
            self.take(Set::Only(Kind::Number));
        } else if self.begins(Set::Only(Kind::Str)) {
            self.take(Set::Only(Kind::Str));
        } else if self.begins(Set::Only(Kind::LParen)) {
            self.parens(indent, depth);
        } else if self.begins(Set::Only(Kind::LBracket)) {
            self.list(indent, depth);
        } else {
            self.fields(indent, depth);
        }
    }

    // '(' Expr ')'
    #[cycle(rows)]
    fn parens(&mut self, indent: Indent, depth: usize)
        requires { begins (is K.LParen) self.old ≡ true }
        ensures { self.new ≡ at_depth indent.columns depth (parens indent.columns) self.old }
    {
        if depth == 0 {
            self.refuse(true);
            return;
        }
        self.put(Mark::Begin);
        self.take(Set::Only(Kind::LParen));
        self.put(Mark::Nest(Indent { columns: 1 }));
        self.inner(indent, depth);
        self.put(Mark::EndNest);
        self.take(Set::Only(Kind::RParen));
        self.put(Mark::EndGroup);
    }

    // '[' [Exprs] ']'
    #[cycle(rows)]
    fn list(&mut self, indent: Indent, depth: usize)
        requires { begins (is K.LBracket) self.old ≡ true }
        ensures { self.new ≡ at_depth indent.columns depth (list indent.columns) self.old }
    {
        if depth == 0 {
            self.refuse(true);
            return;
        }
        self.take(Set::Only(Kind::LBracket));
        self.put(Mark::Nest(Indent { columns: 1 }));
        self.some_exprs(indent, depth);
        self.put(Mark::EndNest);
        self.take(Set::Only(Kind::RBracket));
    }

    // '{' [Init {',' Init} [',']] '}'
    #[cycle(rows)]
    fn fields(&mut self, indent: Indent, depth: usize)
        ensures { self.new ≡ at_depth indent.columns depth (fields indent.columns) self.old }
    {
        if !self.begins(Set::Only(Kind::LBrace)) {
            self.refuse(false);
            return;
        }
        if depth == 0 {
            self.refuse(true);
            return;
        }
        self.take(Set::Only(Kind::LBrace));
        self.some_inits(indent, depth);
        self.take(Set::Only(Kind::RBrace));
    }

    // [Init {',' Init} [',']]
    #[cycle(rows)]
    #[tactic(auto, unfolding(crate::specs::Parts::some_inits))]
    fn some_inits(&mut self, indent: Indent, depth: usize)
        ensures { self.new ≡ at_depth indent.columns depth (some_inits indent.columns) self.old }
    {
        if self.begins(Set::Key) {
            self.put(Mark::Nest(indent));
            self.put(Mark::Begin);
            self.put(Mark::Line);
            self.inits(indent, depth);
            self.put(Mark::Line);
            self.put(Mark::EndGroup);
            self.put(Mark::EndNest);
        }
    }

    // Init {',' Init} [',']
    #[cycle(rows)]
    fn inits(&mut self, indent: Indent, depth: usize)
        ensures { self.new ≡ at_depth indent.columns depth (items (init indent.columns)) self.old }
    {
        self.init(indent, depth);
        self.next_inits(indent, depth);
        self.last_comma();
    }

    // {',' Init}
    #[cycle(rows)]
    fn next_inits(&mut self, indent: Indent, depth: usize)
        ensures { self.new ≡ often_at indent.columns depth K.Comma (line ▸ init indent.columns) self.old }
    {
        'inits: while self.goes(Set::Only(Kind::Comma), Set::Key) {
            self.next_init(indent, depth);
        }
    }

    // ',' Init
    #[cycle(rows)]
    fn next_init(&mut self, indent: Indent, depth: usize)
        ensures { self.new ≡ at_depth indent.columns depth (tok K.Comma ▸ line ▸ init indent.columns) self.old }
    {
        self.take(Set::Only(Kind::Comma));
        self.put(Mark::Line);
        self.init(indent, depth);
    }

    // Init = (IDENT | STR) ':' Expr
    #[cycle(rows)]
    pub(crate) fn init(&mut self, indent: Indent, depth: usize)
        ensures { self.new ≡ at_depth indent.columns depth (init indent.columns) self.old }
    {
        self.key();
        self.take(Set::Only(Kind::Colon));
        self.put(Mark::Space);
        self.inner(indent, depth);
    }

    // [Exprs]
    #[cycle(rows)]
    #[tactic(auto, unfolding(crate::specs::Parts::some_exprs))]
    fn some_exprs(&mut self, indent: Indent, depth: usize)
        ensures { self.new ≡ at_depth indent.columns depth (some_exprs indent.columns) self.old }
    {
        if self.begins(Set::Expression) {
            self.exprs(indent, depth);
        }
    }

    // Exprs = Expr {',' Expr} [',']
    #[cycle(rows)]
    fn exprs(&mut self, indent: Indent, depth: usize)
        ensures { self.new ≡ at_depth indent.columns depth (items inner) self.old }
    {
        self.inner(indent, depth);
        self.next_exprs(indent, depth);
        self.last_comma();
    }

    // {',' Expr}
    #[cycle(rows)]
    fn next_exprs(&mut self, indent: Indent, depth: usize)
        ensures { self.new ≡ often_at indent.columns depth K.Comma (line ▸ inner) self.old }
    {
        'exprs: while self.goes(Set::Only(Kind::Comma), Set::Expression) {
            self.next_expr(indent, depth);
        }
    }

    // ',' Expr
    #[cycle(rows)]
    fn next_expr(&mut self, indent: Indent, depth: usize)
        ensures { self.new ≡ at_depth indent.columns depth (tok K.Comma ▸ line ▸ inner) self.old }
    {
        self.take(Set::Only(Kind::Comma));
        self.put(Mark::Line);
        self.inner(indent, depth);
    }
}

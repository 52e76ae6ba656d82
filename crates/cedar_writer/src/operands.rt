//! Operands without operators: in three groups, one in the other.
ghost use Rattle.std.specs.Prelude.{◌≡◌};
ghost use Rattle.cedar_tokens.specs.declared.kind.Kind.TheVariants as K;
ghost use Rattle.cedar_writer.specs.Rules.{nest, star, group, ◌▸◌, ◌∥◌, maybe};
ghost use Rattle.cedar_writer.specs.Lines.{accessed, accesses, field, ident, operand, str};
ghost use Rattle.cedar_writer.specs.Depths.{alone};
ghost use Rattle.cedar_writer.specs.Parts.{begin_operand, end_groups, end_operand, has, like, next_field};

use crate::sets::Set;
use crate::writer::Writer;
use cedar_print::mark::{Indent, Mark};
use cedar_tokens::kind::Kind;

impl Writer<'_, '_, '_> {
    // three groups begin
    pub(crate) fn begin_operand(&mut self)
        ensures { self.new ≡ alone begin_operand self.old }
    {
        self.put(Mark::Begin);
        self.put(Mark::Begin);
        self.put(Mark::Begin);
    }

    // they end
    fn end_groups(&mut self)
        ensures { self.new ≡ alone end_groups self.old }
    {
        self.put(Mark::EndGroup);
        self.put(Mark::EndGroup);
        self.put(Mark::EndGroup);
    }

    // an empty nest, and they end
    pub(crate) fn end_operand(&mut self, indent: Indent)
        ensures { self.new ≡ alone (end_operand indent.columns) self.old }
    {
        self.put(Mark::Nest(indent));
        self.put(Mark::EndNest);
        self.end_groups();
    }

    // STR, as an operand
    fn text_operand(&mut self, indent: Indent)
        ensures { self.new ≡ alone (operand indent.columns str) self.old }
    {
        self.begin_operand();
        self.take(Set::Only(Kind::Str));
        self.end_operand(indent);
    }

    // IDENT {'.' IDENT}, as an operand
    fn fields_operand(&mut self, indent: Indent)
        ensures { self.new ≡ alone (group (group (accessed indent.columns ident field))) self.old }
    {
        self.begin_operand();
        self.take(Set::Ident);
        self.put(Mark::Nest(indent));
        self.some_fields();
        self.put(Mark::EndNest);
        self.end_groups();
    }

    // {'.' IDENT}
    pub(crate) fn some_fields(&mut self)
        ensures { self.new ≡ alone (maybe (field ▸ star next_field)) self.old }
    {
        if self.begins(Set::Only(Kind::Dot)) {
            self.field();
            self.next_fields();
        }
    }

    // {'.' IDENT}, after the first
    fn next_fields(&mut self)
        ensures { self.new ≡ alone (star next_field) self.old }
    {
        'fields: while self.begins(Set::Only(Kind::Dot)) {
            self.next_field();
        }
    }

    // '.' IDENT
    fn next_field(&mut self)
        ensures { self.new ≡ alone next_field self.old }
    {
        self.put(Mark::LineOrNil);
        self.field();
    }

    // 'has' (STR | IDENT {'.' IDENT})
    pub(crate) fn has(&mut self, indent: Indent)
        ensures { self.new ≡ alone (has indent.columns) self.old }
    {
        self.put(Mark::Line);
        self.take(Set::Only(Kind::Has));
        self.put(Mark::Line);
        self.put(Mark::Nest(indent));
        self.text_or_fields(indent);
        self.put(Mark::EndNest);
    }

    // STR | IDENT {'.' IDENT}
    fn text_or_fields(&mut self, indent: Indent)
        ensures { self.new ≡ alone (operand indent.columns str ∥ group (group (accessed indent.columns ident field))) self.old }
    {
        if self.begins(Set::Only(Kind::Str)) {
            self.text_operand(indent);
        } else {
            self.fields_operand(indent);
        }
    }

    // 'like' STR
    pub(crate) fn like(&mut self, indent: Indent)
        ensures { self.new ≡ alone (like indent.columns) self.old }
    {
        self.put(Mark::Line);
        self.take(Set::Only(Kind::Like));
        self.put(Mark::Line);
        self.put(Mark::Nest(indent));
        self.text_operand(indent);
        self.put(Mark::EndNest);
    }
}

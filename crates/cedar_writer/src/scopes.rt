//! The scope of a policy: its three variables.
ghost use Rattle.std.specs.Prelude.{◌≡◌};
ghost use Rattle.cedar_tokens.specs.declared.kind.Kind.TheVariants as K;
ghost use Rattle.cedar_writer.specs.Rules.{maybe, star, line, ◌▸◌, ◌∥◌, tok};
ghost use Rattle.cedar_writer.specs.Lines.{compared, entity, type_part, ungrouped};
ghost use Rattle.cedar_writer.specs.Depths.{alone, often};
ghost use Rattle.cedar_print.specs.Marks.{mark_of};
ghost use Rattle.cedar_writer.specs.Parts.{action, action_end, bare_scope, begin_compared, broken_scope, end_compared, entities, entities_operand, entity_operand, scoped, scoped_end, scoped_in, slot_operand, slot_or_entity, some_entities, variables};

use crate::sets::Set;
use crate::writer::Writer;
use cedar_print::mark::{Indent, Mark};
use cedar_tokens::kind::Kind;

impl<'src> Writer<'_, '_, 'src> {
    // 'is' Path
    fn type_part(&mut self, indent: Indent)
        ensures { self.new ≡ alone (type_part indent.columns) self.old }
    {
        self.put(Mark::Begin);
        self.put(Mark::Nest(indent));
        self.put(Mark::Begin);
        self.put(Mark::Line);
        self.take(Set::Only(Kind::Is));
        self.put(Mark::EndGroup);
        self.put(Mark::Line);
        self.path();
        self.put(Mark::EndNest);
        self.put(Mark::EndGroup);
    }

    // ['is' Path]
    fn some_type(&mut self, indent: Indent)
        ensures { self.new ≡ alone (maybe (type_part indent.columns)) self.old }
    {
        if self.begins(Set::Only(Kind::Is)) {
            self.type_part(indent);
        }
    }

    // slot | Entity
    fn slot_or_entity(&mut self, slot: Kind)
        ensures { self.new ≡ alone (slot_or_entity slot) self.old }
    {
        if self.begins(Set::Only(slot)) {
            self.take(Set::Only(slot));
        } else {
            self.entity();
        }
    }

    // slot | Entity, as an operand
    #[tactic(auto, unfolding(crate::specs::Parts::slot_operand))]
    fn slot_operand(&mut self, indent: Indent, slot: Kind)
        ensures { self.new ≡ alone (slot_operand indent.columns slot) self.old }
    {
        self.begin_operand();
        self.slot_or_entity(slot);
        self.end_operand(indent);
    }

    // an operator, up to its operand
    fn begin_compared(&mut self, indent: Indent, operator: Kind)
        ensures { self.new ≡ alone (begin_compared indent.columns operator) self.old }
    {
        self.put(Mark::Line);
        self.take(Set::Only(operator));
        self.put(Mark::EndGroup);
        self.put(Mark::Nest(indent));
        self.put(Mark::Line);
    }

    // after the operand
    fn end_compared(&mut self)
        ensures { self.new ≡ alone end_compared self.old }
    {
        self.put(Mark::EndNest);
        self.put(Mark::EndGroup);
    }

    // an operator, and slot | Entity
    fn compared_slot(&mut self, indent: Indent, operator: Kind, slot: Kind)
        ensures { self.new ≡ alone (compared indent.columns operator (slot_operand indent.columns slot)) self.old }
    {
        self.begin_compared(indent, operator);
        self.slot_operand(indent, slot);
        self.end_compared();
    }

    // two groups that began are none
    fn ungrouped(&mut self)
        ensures { self.new ≡ alone ungrouped self.old }
    {
        self.put(Mark::EndNothing);
        self.put(Mark::EndNothing);
    }

    // ['in' VE]
    fn scoped_in(&mut self, indent: Indent, slot: Kind)
        ensures { self.new ≡ alone (scoped_in indent.columns slot) self.old }
    {
        if self.begins(Set::Only(Kind::In)) {
            self.compared_slot(indent, Kind::In, slot);
        } else {
            self.ungrouped();
        }
    }

    // [ '==' VE | 'is' Path ['in' VE] | 'in' VE ]
    fn scoped_end(&mut self, indent: Indent, slot: Kind)
        ensures { self.new ≡ alone (scoped_end indent.columns slot) self.old }
    {
        if self.begins(Set::Only(Kind::Equal)) {
            self.compared_slot(indent, Kind::Equal, slot);
        } else {
            self.some_type(indent);
            self.scoped_in(indent, slot);
        }
    }

    // Principal = 'principal' [ '==' PE | 'is' Path ['in' PE] | 'in' PE ]      PE = Entity | '?principal'
    // Resource = 'resource' [ '==' RE | 'is' Path ['in' RE] | 'in' RE ]      RE = Entity | '?resource'
    #[tactic(auto, unfolding(crate::specs::Parts::scoped))]
    pub(crate) fn scoped(&mut self, indent: Indent, variable: Kind, slot: Kind)
        ensures { self.new ≡ alone (scoped indent.columns variable slot) self.old }
    {
        self.lift();
        self.put(Mark::Begin);
        self.put(Mark::Begin);
        self.take(Set::Only(variable));
        self.scoped_end(indent, slot);
    }

    // Entity, as an operand
    fn entity_operand(&mut self, indent: Indent)
        ensures { self.new ≡ alone (entity_operand indent.columns) self.old }
    {
        self.begin_operand();
        self.entity();
        self.end_operand(indent);
    }

    // ',' Entity
    fn next_entity(&mut self, indent: Indent)
        ensures { self.new ≡ alone (tok K.Comma ▸ line ▸ entity_operand indent.columns) self.old }
    {
        self.take(Set::Only(Kind::Comma));
        self.put(Mark::Line);
        self.entity_operand(indent);
    }

    // {',' Entity}
    fn next_entities(&mut self, indent: Indent)
        ensures { self.new ≡ often K.Comma (line ▸ entity_operand indent.columns) self.old }
    {
        'entities: while self.goes(Set::Only(Kind::Comma), Set::Ident) {
            self.next_entity(indent);
        }
    }

    // [Entity {',' Entity} [',']]
    #[tactic(auto, unfolding(crate::specs::Parts::some_entities))]
    fn some_entities(&mut self, indent: Indent)
        ensures { self.new ≡ alone (some_entities indent.columns) self.old }
    {
        if self.begins(Set::Ident) {
            self.entity_operand(indent);
            self.next_entities(indent);
            self.last_comma();
        }
    }

    // '[' [Entity {',' Entity} [',']] ']'
    fn entities(&mut self, indent: Indent)
        ensures { self.new ≡ alone (entities indent.columns) self.old }
    {
        self.take(Set::Only(Kind::LBracket));
        self.put(Mark::Nest(Indent { columns: 1 }));
        self.some_entities(indent);
        self.put(Mark::EndNest);
        self.take(Set::Only(Kind::RBracket));
    }

    // Entity | '[' [Entity {',' Entity} [',']] ']'
    fn entity_or_entities(&mut self, indent: Indent)
        ensures { self.new ≡ alone (entity ∥ entities indent.columns) self.old }
    {
        if self.begins(Set::Ident) {
            self.entity();
        } else {
            self.entities(indent);
        }
    }

    // the same, as an operand
    #[tactic(auto, unfolding(crate::specs::Parts::entities_operand))]
    fn entities_operand(&mut self, indent: Indent)
        ensures { self.new ≡ alone (entities_operand indent.columns) self.old }
    {
        self.begin_operand();
        self.entity_or_entities(indent);
        self.end_operand(indent);
    }

    // '==' Entity
    fn equal_entity(&mut self, indent: Indent)
        ensures { self.new ≡ alone (compared indent.columns K.Equal (entity_operand indent.columns)) self.old }
    {
        self.begin_compared(indent, Kind::Equal);
        self.entity_operand(indent);
        self.end_compared();
    }

    // 'in' (Entity | '[' [Entity {',' Entity} [',']] ']')
    fn in_entities(&mut self, indent: Indent)
        ensures { self.new ≡ alone (compared indent.columns K.In (entities_operand indent.columns)) self.old }
    {
        self.begin_compared(indent, Kind::In);
        self.entities_operand(indent);
        self.end_compared();
    }

    // [ '==' Entity | 'in' (Entity | '[' [Entity {',' Entity} [',']] ']') ]
    fn action_end(&mut self, indent: Indent)
        ensures { self.new ≡ alone (action_end indent.columns) self.old }
    {
        if self.begins(Set::Only(Kind::Equal)) {
            self.equal_entity(indent);
        } else if self.begins(Set::Only(Kind::In)) {
            self.in_entities(indent);
        } else {
            self.ungrouped();
        }
    }

    // Action = 'action' [ '==' Entity | 'in' (Entity | '[' [Entity {',' Entity} [',']] ']') ]
    #[tactic(auto, unfolding(crate::specs::Parts::action))]
    pub(crate) fn action(&mut self, indent: Indent)
        ensures { self.new ≡ alone (action indent.columns) self.old }
    {
        self.lift();
        self.put(Mark::Begin);
        self.put(Mark::Begin);
        self.take(Set::Only(Kind::Action));
        self.action_end(indent);
    }

    // Principal ',' Action ',' Resource
    #[tactic(auto, unfolding(crate::specs::Parts::variables))]
    fn variables(&mut self, indent: Indent, next: Mark<'src>)
        ensures { self.new ≡ alone (variables indent.columns (mark_of next.entry)) self.old }
    {
        self.scoped(indent, Kind::Principal, Kind::PrincipalSlot);
        self.take_then(Set::Only(Kind::Comma), next);
        self.action(indent);
        self.take_then(Set::Only(Kind::Comma), next);
        self.scoped(indent, Kind::Resource, Kind::ResourceSlot);
    }

    // the same on one line, if it fits
    #[tactic(auto, unfolding(crate::specs::Parts::bare_scope))]
    pub(crate) fn bare_scope(&mut self, indent: Indent)
        ensures { self.new ≡ alone (bare_scope indent.columns) self.old }
    {
        self.put(Mark::Begin);
        self.put(Mark::Nest(indent));
        self.variables(indent, Mark::Space);
        self.put(Mark::EndNest);
        self.put(Mark::EndGroup);
    }

    // the same on a line each
    #[tactic(auto, unfolding(crate::specs::Parts::broken_scope))]
    pub(crate) fn broken_scope(&mut self, indent: Indent)
        ensures { self.new ≡ alone (broken_scope indent.columns) self.old }
    {
        self.put(Mark::Nest(indent));
        self.put(Mark::Hard);
        self.variables(indent, Mark::Hard);
        self.put(Mark::EndNest);
        self.put(Mark::Hard);
    }
}

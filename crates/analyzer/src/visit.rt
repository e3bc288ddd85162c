ghost use Rattle.std.specs.Prelude.{◌≡◌, ◌+◌, ◌<◌, length};
ghost use Rattle.records.specs.Chains.{as_chain, head_of_node};
ghost use Rattle.records.specs.KindWords.{kind_word};
ghost use Rattle.records.specs.Reads.{head_of};
ghost use Rattle.analyzer.specs.Scopes.{here_inside};
ghost use Rattle.analyzer.specs.Visits.{Ready, Kept, Enters, here_of, state_of};
ghost use Rattle.analyzer.specs.Walk.{Went, sort_of, visited, walk};

use crate::analyzer::{Analyzer, Entered};
use crate::fault::CountFault;
use crate::notes::{Notes, calls_eval};
use crate::reference::Use;
use records::{Children, Kind, Node, Record};

/// The sorts of records, one for each function that visits records.
#[derive(Clone, Copy)]
enum Sort {
    /// A root, an item, a statement, or a part of one.
    Statement,
    /// What opens a scope.
    Function,
    /// A part of a class.
    Class,
    Expression,
    /// A pattern, or a part of one.
    Pattern,
}

impl From<Kind> for Sort {
    ghost from_gives = { λ kind sort. sort ≡ sort_of (kind_word kind) };

    /// The sort of the records of a kind.
    fn from(kind: Kind) -> Sort {
        if matches!(kind, Kind::Function | Kind::Arrow) {
            Sort::Function
        } else if kind == Kind::Class || kind.is_class_member() {
            Sort::Class
        } else if kind.is_expression() {
            Sort::Expression
        } else if kind.is_pattern() || kind == Kind::PropertyName {
            Sort::Pattern
        } else {
            Sort::Statement
        }
    }
}

impl<'t> Analyzer<'t> {
    /// Goes from what surrounds a record to what surrounds its children.
    fn enter(&mut self, parent: Record)
        requires { self.old.scope.len < length self.old.path }
        ensures { Enters self.old parent self.new }
    {
        self.scope.enter(&mut self.path, parent);
    }

    /// Counts what stands in the chain, and below it.
    #[cycle(visit)]
    pub(crate) fn visit_children(&mut self, chain: Children<'_>) -> Result<(), CountFault>
        requires { Ready self.old (as_chain chain) chain.left }
        ensures kept { Kept self.old self.new }
        ensures walk { Went (walk (here_of self.old) (as_chain chain.entry) (state_of self.old)) result (state_of self.new) }
    {
        for node in chain {
            self.visit_node(node)?;
        }
        Ok(())
    }

    /// Counts a record and what stands below it.
    // Which function is called is the kind's matter, and each calls the others: a table of closures would say less.
    #[cycle(visit)]
    fn visit_node(&mut self, node: Node<'_>) -> Result<(), CountFault>
        requires { Ready self.old (as_chain node.below) (node.below.left + 1) }
        ensures kept { Kept self.old self.new }
        ensures walk { Went (visited (sort_of (kind_word node.entry.record.kind)) (here_of self.old) (head_of_node node.entry) (as_chain node.entry.below) (state_of self.old)) result (state_of self.new) }
    {
        match Sort::from(node.record.kind) {
            Sort::Statement => self.visit_statement(node),
            Sort::Function => self.visit_function(node),
            Sort::Class => self.visit_class(node),
            Sort::Expression => self.visit_expression(node),
            Sort::Pattern => self.visit_pattern(node),
        }
    }

    /// Counts a statement, an item or a part of one: the names of an Export declaration first, the name of an Export name last.
    #[cycle(visit)]
    fn visit_statement(&mut self, node: Node<'_>) -> Result<(), CountFault>
        requires { Ready self.old (as_chain node.below) (node.below.left + 1) }
        ensures kept { Kept self.old self.new }
        ensures walk { Went (visited Sort.Statement (here_of self.old) (head_of_node node.entry) (as_chain node.entry.below) (state_of self.old)) result (state_of self.new) }
    {
        if node.record.kind == Kind::ExportDeclaration {
            self.read_exports(node.below)?;
        }
        self.visit_inside(node)?;
        if node.record.kind == Kind::ExportName {
            self.reference(Use::Reads, node)?;
        }
        Ok(())
    }

    /// Counts what opens a scope, and on leaving it what the scope has noted.
    #[cycle(visit)]
    fn visit_function(&mut self, node: Node<'_>) -> Result<(), CountFault>
        requires { Ready self.old (as_chain node.below) (node.below.left + 1) }
        ensures kept { Kept self.old self.new }
        ensures walk { Went (visited Sort.Function (here_of self.old) (head_of_node node.entry) (as_chain node.entry.below) (state_of self.old)) result (state_of self.new) }
    {
        let outer = self.notes;
        self.notes = Notes::none();
        self.visit_inside(node)?;
        let inner = self.notes;
        self.leave_scope(node, inner)?;
        self.notes = outer.after_scope(node.record, inner);
        Ok(())
    }

    /// Counts a part of a class.
    #[cycle(visit)]
    fn visit_class(&mut self, node: Node<'_>) -> Result<(), CountFault>
        requires { Ready self.old (as_chain node.below) (node.below.left + 1) }
        ensures kept { Kept self.old self.new }
        ensures walk { Went (visited Sort.Class (here_of self.old) (head_of_node node.entry) (as_chain node.entry.below) (state_of self.old)) result (state_of self.new) }
    {
        self.visit_inside(node)
    }

    /// Counts an expression: an Identifier reads its name, a Call may call `eval`.
    #[cycle(visit)]
    fn visit_expression(&mut self, node: Node<'_>) -> Result<(), CountFault>
        requires { Ready self.old (as_chain node.below) (node.below.left + 1) }
        ensures kept { Kept self.old self.new }
        ensures walk { Went (visited Sort.Expression (here_of self.old) (head_of_node node.entry) (as_chain node.entry.below) (state_of self.old)) result (state_of self.new) }
    {
        self.visit_inside(node)?;
        if node.record.kind == Kind::Identifier {
            self.reference(Use::Reads, node)?;
        }
        if node.record.kind == Kind::Call && calls_eval(node.below) {
            self.notes.found_direct_eval = true;
        }
        Ok(())
    }

    /// Counts a pattern or a part of one.
    #[cycle(visit)]
    fn visit_pattern(&mut self, node: Node<'_>) -> Result<(), CountFault>
        requires { Ready self.old (as_chain node.below) (node.below.left + 1) }
        ensures kept { Kept self.old self.new }
        ensures walk { Went (visited Sort.Pattern (here_of self.old) (head_of_node node.entry) (as_chain node.entry.below) (state_of self.old)) result (state_of self.new) }
    {
        self.visit_inside(node)?;
        self.assign(node)
    }

    /// Counts the children of a record, with what surrounds them.
    #[cycle(visit)]
    fn visit_inside(&mut self, node: Node<'_>) -> Result<(), CountFault>
        requires { Ready self.old (as_chain node.below) (node.below.left + 1) }
        ensures kept { Kept self.old self.new }
        ensures walk { Went (walk (here_inside (here_of self.old) (head_of 0 node.entry.record)) (as_chain node.entry.below) (state_of self.old)) result (state_of self.new) }
    {
        let saved = self.scope;
        let entered = Entered {
            analyzer: self,
            saved,
        };
        entered.analyzer.enter(node.record);
        entered.analyzer.visit_children(node.below)
    }
}

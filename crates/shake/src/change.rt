// A record that a rule of removal took, or that gave way.
use records::{Id, Kind};
use std::fmt;

/// Which rule of removal changed a record.
#[derive(Clone, Copy, PartialEq, Eq, Debug)]
pub enum Rule {
    /// An Empty or a childless Block is unlinked from its list.
    List,
    /// A Fn declaration goes, since its name can.
    FnDeclaration,
    /// A Class declaration goes, since its name can and nothing keeps it.
    ClassDeclaration,
    /// A Declarator goes, since its name can and its value does not act.
    Declarator,
    /// A Declarator gives way to its value: the names of all that remain in its Var declaration can go.
    Restated,
    /// A Specifier goes, since its name can.
    Specifier,
    /// An Import goes, since it lost its last Specifier.
    Import,
    /// An Assignment gives way to its value, since nobody reads the name.
    Assignment,
    /// A Call gives way to the Object that its function returns.
    Call,
}

/// A record that a rule changed: its number and kind, the name that it declares or assigns, and the rule.
#[derive(Clone, Copy, PartialEq, Eq, Debug)]
pub struct Change {
    pub number: u32,
    pub kind: Kind,
    pub id: Id,
    pub rule: Rule,
}

impl Rule {
    /// Whether what stands in the record goes with it.
    pub(crate) fn takes_all(self) -> bool {
        matches!(
            self,
            Rule::FnDeclaration | Rule::ClassDeclaration | Rule::Declarator
        )
    }
}

impl fmt::Display for Rule {
    /// Writes what became of the record, and why.
    fn fmt<W: fmt::Write>(&self, f: &mut fmt::Formatter<W>) -> fmt::Result {
        f.write_str(match self {
            Rule::List => "was unlinked: it is empty",
            Rule::FnDeclaration => "went: no use of it counts",
            Rule::ClassDeclaration => "went: no use of it counts, and it does nothing by itself",
            Rule::Declarator => "went: no use of it counts, and its value does nothing",
            Rule::Restated => "gave way to its value: no use of it counts",
            Rule::Specifier => "went: no use of it counts",
            Rule::Import => "went: it has lost all its names",
            Rule::Assignment => "gave way to its value: no reading of it counts",
            Rule::Call => "gave way to the Object that it returns",
        })
    }
}

impl fmt::Display for Change {
    /// Writes the record's number, its kind, its name if it has one, and what became of it.
    fn fmt<W: fmt::Write>(&self, f: &mut fmt::Formatter<W>) -> fmt::Result {
        let number = self.number;
        let kind = self.kind;
        let id = self.id;
        let rule = self.rule;
        if id.symbol == 0 {
            write!(f, "{number} {kind} {rule}")
        } else {
            write!(f, "{number} {kind} {id} {rule}")
        }
    }
}

ghost use Rattle.std.specs.Prelude.{◌≡◌, ◌||◌, ◌==◌};
ghost use Rattle.rules.specs.Removal.{at_root, place_inside, asm};
ghost use Rattle.records.specs.Chains.{as_chain};
ghost use Rattle.records.specs.Reads.{head_of};
ghost use Rattle.records.specs.KindWords.{kind_word};
ghost use Rattle.shaker.specs.Places.{place_of, var_decl_kind_of};
ghost use Rattle.shaker.specs.Treating.{listed, listed_first, passed_by, entered_by, entered_first, place_below};

use records::{Children, Kind, Record};

/// The symbol of the text 'use asm'.
const ASM: u32 = 3;

/// How a Var declares its names: by `var`, or by `let` or `const`, which the rules do not tell apart.
#[derive(Clone, Copy, PartialEq, Eq, Debug)]
pub enum VarDeclKind {
    Var,
    Lexical,
}

impl VarDeclKind {
    /// The kind of a Var; other records have none.
    fn of(node: Record) -> Option<VarDeclKind>
        ensures { result ≡ var_decl_kind_of (head_of 0 node) }
    {
        if node.kind != Kind::VarDeclaration {
            None
        } else if node.is_flagged() {
            Some(VarDeclKind::Var)
        } else {
            Some(VarDeclKind::Lexical)
        }
    }
}

/// Where a record stands: below a Function, below a Block, in a Var of some kind, in an Export declaration; and its parent's kind.
#[derive(Clone, Copy, PartialEq, Eq, Debug)]
pub struct Place {
    pub in_fn: bool,
    pub in_block_stmt: bool,
    pub var_decl_kind: Option<VarDeclKind>,
    pub in_export: bool,
    pub parent: Option<Kind>,
}

impl Place {
    /// The root's place.
    pub fn at_root() -> Place
        ensures { place_of result ≡ at_root }
    {
        Place {
            in_fn: false,
            in_block_stmt: false,
            var_decl_kind: None,
            in_export: false,
            parent: None,
        }
    }

    /// The place of a record's children.
    pub fn inside(self, node: Record) -> Place
        ensures place { place_of result ≡ place_inside (place_of self) (head_of 0 node) }
        ensures kind { result.var_decl_kind ≡ var_decl_kind_of (head_of 0 node) }
    {
        let kind = node.kind;
        Place {
            in_fn: self.in_fn || kind == Kind::Function,
            in_block_stmt: self.in_block_stmt || kind == Kind::Block,
            var_decl_kind: VarDeclKind::of(node),
            in_export: kind == Kind::ExportDeclaration
                || (self.in_export && (kind == Kind::VarDeclaration || kind == Kind::Declarator)),
            parent: Some(kind),
        }
    }

    /// Whether its parent is of this kind.
    fn is_in(self, kind: Kind) -> bool
        ensures { result ≡ ((place_of self).parent == kind_word kind) }
    {
        self.parent == Some(kind)
    }

    // `asm` and `last` are two parameters, here and below: they are facts of their own, and the rules' definition takes both.
    /// Whether the rules pass by a record for where it stands, or for a list that begins with 'use asm'; the last of its chain stands at no head of a For.
    fn passes_by(self, kind: Kind, asm: bool, last: bool) -> bool
        ensures { result ≡ passed_by (place_of self) (kind_word kind) asm last }
    {
        (self.is_in(Kind::With) && kind.is_statement())
            || (self.is_in(Kind::For) && kind == Kind::VarDeclaration && !last)
            || (self.in_export && kind.is_pattern())
            || (has_list(kind) && asm)
    }

    /// Whether the rules enter such a record here, given whether its children begin with 'use asm' and whether it is the last of its chain.
    fn enters(self, kind: Kind, asm: bool, last: bool) -> bool
        ensures { result ≡ entered_by (place_of self) (kind_word kind) asm last }
    {
        !matches!(kind, Kind::ExportDefault | Kind::Delete) && !self.passes_by(kind, asm, last)
    }

    /// Whether the rules enter the first record of the chain.
    pub fn enters_at(self, chain: Children<'_>) -> bool
        ensures { result ≡ entered_first (place_of self) (as_chain chain.entry) }
    {
        let last = chain.after().is_end();
        chain.first().is_some_and(|node| self.enters(node.record.kind, is_asm(node.below), last))
    }

    /// The place of the children of the chain's first record.
    pub fn below(self, chain: Children<'_>) -> Place
        ensures { place_of result ≡ place_below (place_of self) (as_chain chain.entry) }
    {
        chain.first().map_or(self, |node| self.inside(node.record))
    }
}

/// Whether the children of the chain's first record are a list of statements or items.
pub fn first_has_list(chain: Children<'_>) -> bool
    ensures { result ≡ listed_first (as_chain chain.entry) }
{
    chain.first().is_some_and(|node| has_list(node.record.kind))
}

/// Whether the children of such a record are a list of statements or items.
pub fn has_list(kind: Kind) -> bool
    ensures { result ≡ listed (kind_word kind) }
{
    matches!(kind, Kind::Module | Kind::Script | Kind::Block)
}

/// Whether a list begins with 'use asm'.
fn is_asm(list: Children<'_>) -> bool
    ensures { result ≡ asm (as_chain list.entry) }
{
    let text = list.below();
    list.first_is(Kind::ExpressionStatement)
        && text.first_is(Kind::Literal)
        && text.first_id().symbol == ASM
}

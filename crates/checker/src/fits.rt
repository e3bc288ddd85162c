ghost use Rattle.std.specs.Prelude.{◌≡◌};
ghost use Rattle.rules.specs.Grammar.{named, may_be_flagged, name_fits, flags_fit, words_fit};
ghost use Rattle.records.specs.KindWords.{kind_word};
ghost use Rattle.records.specs.Reads.{head_of};

use records::{Kind, Record};

/// Whether a record's flags, symbol and mark are such as its kind has.
pub(crate) fn fits(node: Record) -> bool
    ensures { result ≡ words_fit (head_of 0 node) }
{
    flags_fit(node) && name_fits(node)
}

/// Whether the flags are 0, or 1 where that has a sense.
fn flags_fit(node: Record) -> bool
    ensures { result ≡ flags_fit (head_of 0 node) }
{
    node.flags == 0 || (node.is_flagged() && may_be_flagged(node.kind))
}

/// Whether symbol and mark are a name, a string's text or nothing, as the kind has them.
fn name_fits(node: Record) -> bool
    ensures { result ≡ name_fits (head_of 0 node) }
{
    let bare = node.symbol == 0 && node.mark == 0;
    if is_named(node.kind) {
        node.symbol != 0
    } else if node.kind == Kind::Literal {
        node.mark == 0
    } else if node.kind.is_definition_expression() {
        node.symbol != 0 || bare
    } else {
        bare
    }
}

/// Whether a record of this kind bears a name.
fn is_named(kind: Kind) -> bool
    ensures { result ≡ named (kind_word kind) }
{
    matches!(
        kind,
        Kind::Specifier
            | Kind::ExportName
            | Kind::FnDeclaration
            | Kind::ClassDeclaration
            | Kind::Identifier
            | Kind::NamePattern
            | Kind::PropertyName
    )
}

/// Whether flag 1 has a sense for this kind.
fn may_be_flagged(kind: Kind) -> bool
    ensures { result ≡ may_be_flagged (kind_word kind) }
{
    matches!(
        kind,
        Kind::PlainStatement
            | Kind::VarDeclaration
            | Kind::Function
            | Kind::Class
            | Kind::Method
            | Kind::Property
            | Kind::PlainExpression
            | Kind::Assignment
    )
}

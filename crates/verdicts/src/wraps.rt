ghost use Rattle.std.specs.Prelude.{◌≡◌};
ghost use Rattle.rules.specs.Removal.{only_identifiers, returns_object, wraps_object, call_unwraps};
ghost use Rattle.records.specs.Chains.{as_chain, head_of_node};

use records::{Children, Kind, Node};

/// Whether a chain has no record but Identifiers.
fn only_identifiers(mut chain: Children<'_>) -> bool
    ensures { result ≡ only_identifiers (as_chain chain.entry) }
{
    chain.all(|node| node.record.kind == Kind::Identifier)
}

/// Whether the statements are one return of an Object of Identifiers.
fn returns_object(statements: Children<'_>) -> bool
    ensures { result ≡ returns_object (as_chain statements.entry) }
{
    let object = statements.below();
    statements.first_is(Kind::PlainStatement)
        && statements.first_flagged()
        && statements.after().is_end()
        && object.first_is(Kind::Object)
        && only_identifiers(object.below())
}

/// Whether a Call's children are an unnamed function expression alone, neither async nor generator, without parameters, whose Block is such.
fn wraps_object(callee: Children<'_>) -> bool
    ensures { result ≡ wraps_object (as_chain callee.entry) }
{
    let function = callee.below();
    let body = function.below();
    callee.first_is(Kind::FunctionExpression)
        && callee.first_id().symbol == 0
        && callee.after().is_end()
        && !function.first_flagged()
        && body.first_is(Kind::Block)
        && returns_object(body.below())
}

// Inlined, so that a record of another kind is not put together for a call.
/// Whether a Call gives way to the Object that it wraps.
#[inline(always)]
pub(crate) fn call_unwraps(node: Node<'_>) -> bool
    ensures { result ≡ call_unwraps (head_of_node node.entry) (as_chain node.entry.below) }
{
    node.record.kind == Kind::Call && wraps_object(node.below)
}

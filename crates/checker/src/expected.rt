ghost use Rattle.std.specs.Prelude.{◌≡◌};
ghost use Rattle.rules.specs.Grammar.{children_of, step, may_end};
ghost use Rattle.records.specs.KindWords.{kind_word};
ghost use Rattle.records.specs.Reads.{head_of};
ghost use Rattle.checker.specs.Expecting.{ways, ways_after};

use records::{Kind, Record};

/// What may follow in a chain of children. Each variant names what is expected next, and so says what may come after that.
#[derive(Clone, Copy)]
pub(crate) enum Expected {
    Root,
    Nothing,
    Items,
    Statements,
    Specifiers,
    OneDeclaration,
    ExportNames,
    OneDefinition,
    OneExpression,
    MaybeExpression,
    Expressions,
    OneStatement,
    PlainParts,
    PlainStatements,
    /// One statement of a Plain statement has come.
    PlainLast,
    TryBlock,
    TryHandler,
    MaybeBlock,
    OneBlock,
    OneFunction,
    OneClass,
    Declarators,
    MoreDeclarators,
    ForHead,
    /// A Var declaration has come, which is the head, or the statement if nothing follows.
    ForAfterVar,
    ForAfterPattern,
    /// One expression of a For has come.
    ForSecond,
    /// Two have come.
    ForThird,
    /// The statement of a For has come.
    ForDone,
    WithObject,
    CatchPattern,
    DeclaratorPattern,
    Parameters,
    Superclass,
    Members,
    MethodKey,
    PropertyKey,
    ArrowParameters,
    Callee,
    AssignmentTarget,
    /// The target of a compound assignment, as `+=` is.
    UpdateTarget,
    PatternParts,
    DefaultedPattern,
}

impl Expected {
    /// What is expected first under a record.
    pub(crate) fn under(parent: Record) -> Expected
        ensures { ways result ≡ children_of (head_of 0 parent) }
    {
        let flagged = parent.is_flagged();
        match parent.kind {
            Kind::Module => Expected::Items,
            Kind::Script => Expected::Statements,
            Kind::Import => Expected::Specifiers,
            Kind::Specifier => Expected::Nothing,
            Kind::ExportDeclaration => Expected::OneDeclaration,
            Kind::ExportList => Expected::ExportNames,
            Kind::ExportName => Expected::Nothing,
            Kind::ExportDefault => Expected::OneDefinition,
            Kind::Empty => Expected::Nothing,
            Kind::Block => Expected::Statements,
            Kind::ExpressionStatement => Expected::OneExpression,
            Kind::PlainStatement if flagged => Expected::MaybeExpression,
            Kind::PlainStatement => Expected::PlainParts,
            Kind::Try => Expected::TryBlock,
            Kind::FnDeclaration => Expected::OneFunction,
            Kind::ClassDeclaration => Expected::OneClass,
            Kind::VarDeclaration => Expected::Declarators,
            Kind::For => Expected::ForHead,
            Kind::With => Expected::WithObject,
            Kind::Catch => Expected::CatchPattern,
            Kind::Declarator => Expected::DeclaratorPattern,
            Kind::Function => Expected::Parameters,
            Kind::Class if flagged => Expected::Superclass,
            Kind::Class => Expected::Members,
            Kind::Method if flagged => Expected::MethodKey,
            Kind::Method => Expected::OneFunction,
            Kind::Property if flagged => Expected::PropertyKey,
            Kind::Property => Expected::MaybeExpression,
            Kind::StaticBlock => Expected::OneBlock,
            Kind::Constructor => Expected::Parameters,
            Kind::Identifier => Expected::Nothing,
            Kind::Literal => Expected::Nothing,
            Kind::FunctionExpression => Expected::OneFunction,
            Kind::ClassExpression => Expected::OneClass,
            Kind::Arrow => Expected::ArrowParameters,
            Kind::PlainExpression => Expected::Expressions,
            Kind::Object => Expected::Expressions,
            Kind::Call => Expected::Callee,
            Kind::Delete => Expected::OneExpression,
            Kind::Assignment if flagged => Expected::UpdateTarget,
            Kind::Assignment => Expected::AssignmentTarget,
            Kind::NamePattern => Expected::Nothing,
            Kind::CompoundPattern => Expected::PatternParts,
            Kind::DefaultPattern => Expected::DefaultedPattern,
            Kind::PropertyName => Expected::MaybeExpression,
            Kind::ExpressionPattern => Expected::OneExpression,
        }
    }

    /// Whether the chain may end here.
    pub(crate) fn may_end(self) -> bool
        ensures { result ≡ may_end (ways self) }
    {
        matches!(
            self,
            Expected::Nothing
                | Expected::Items
                | Expected::Statements
                | Expected::Specifiers
                | Expected::ExportNames
                | Expected::MaybeExpression
                | Expected::Expressions
                | Expected::PlainParts
                | Expected::PlainStatements
                | Expected::PlainLast
                | Expected::MaybeBlock
                | Expected::MoreDeclarators
                | Expected::ForAfterVar
                | Expected::ForDone
                | Expected::Members
                | Expected::PatternParts
        )
    }

    /// What is expected after a child of this kind, or nothing if it is misplaced.
    pub(crate) fn after(self, kind: Kind) -> Option<Expected>
        ensures { ways_after result ≡ step (kind_word kind) (ways self) }
    {
        match self {
            Expected::Root => (kind == Kind::Module || kind == Kind::Script).then_some(
                Expected::Nothing,
            ),
            Expected::Nothing | Expected::ForDone => None,
            Expected::Items => kind.is_item().then_some(Expected::Items),
            Expected::Statements => kind.is_statement().then_some(Expected::Statements),
            Expected::Specifiers => (kind == Kind::Specifier).then_some(Expected::Specifiers),
            Expected::OneDeclaration => kind.is_declaration().then_some(Expected::Nothing),
            Expected::ExportNames => (kind == Kind::ExportName).then_some(Expected::ExportNames),
            Expected::OneDefinition => kind.is_definition_expression().then_some(Expected::Nothing),
            Expected::OneExpression => kind.is_expression().then_some(Expected::Nothing),
            Expected::MaybeExpression => kind.is_expression().then_some(Expected::Nothing),
            Expected::Expressions => kind.is_expression().then_some(Expected::Expressions),
            Expected::OneStatement => kind.is_statement().then_some(Expected::Nothing),
            Expected::PlainParts if kind.is_expression() => Some(Expected::PlainStatements),
            Expected::PlainParts => kind.is_statement().then_some(Expected::PlainLast),
            Expected::PlainStatements => kind.is_statement().then_some(Expected::PlainLast),
            Expected::PlainLast => kind.is_statement().then_some(Expected::Nothing),
            Expected::TryBlock => (kind == Kind::Block).then_some(Expected::TryHandler),
            Expected::TryHandler if kind == Kind::Catch => Some(Expected::MaybeBlock),
            Expected::TryHandler => (kind == Kind::Block).then_some(Expected::Nothing),
            Expected::MaybeBlock => (kind == Kind::Block).then_some(Expected::Nothing),
            Expected::OneBlock => (kind == Kind::Block).then_some(Expected::Nothing),
            Expected::OneFunction => (kind == Kind::Function).then_some(Expected::Nothing),
            Expected::OneClass => (kind == Kind::Class).then_some(Expected::Nothing),
            Expected::Declarators => (kind == Kind::Declarator).then_some(
                Expected::MoreDeclarators,
            ),
            Expected::MoreDeclarators => (kind == Kind::Declarator).then_some(
                Expected::MoreDeclarators,
            ),
            Expected::ForHead if kind == Kind::VarDeclaration => Some(Expected::ForAfterVar),
            Expected::ForHead if kind.is_pattern() => Some(Expected::ForAfterPattern),
            Expected::ForHead | Expected::ForAfterVar | Expected::ForAfterPattern
                if kind.is_expression() => { Some(Expected::ForSecond) }
            Expected::ForHead | Expected::ForAfterVar | Expected::ForAfterPattern => {
                kind.is_statement().then_some(Expected::Nothing)
            }
            Expected::ForSecond if kind.is_expression() => Some(Expected::ForThird),
            Expected::ForThird if kind.is_expression() => Some(Expected::OneStatement),
            Expected::ForSecond | Expected::ForThird => kind
                .is_statement()
                .then_some(Expected::ForDone),
            Expected::WithObject => kind.is_expression().then_some(Expected::OneStatement),
            Expected::CatchPattern if kind.is_pattern() => Some(Expected::OneBlock),
            Expected::CatchPattern => (kind == Kind::Block).then_some(Expected::Nothing),
            Expected::DeclaratorPattern => kind.is_pattern().then_some(Expected::MaybeExpression),
            Expected::Parameters if kind.is_pattern() => Some(Expected::Parameters),
            Expected::Parameters => (kind == Kind::Block).then_some(Expected::Nothing),
            Expected::Superclass => kind.is_expression().then_some(Expected::Members),
            Expected::Members => kind.is_class_member().then_some(Expected::Members),
            Expected::MethodKey => kind.is_expression().then_some(Expected::OneFunction),
            Expected::PropertyKey => kind.is_expression().then_some(Expected::MaybeExpression),
            Expected::ArrowParameters if kind.is_pattern() => Some(Expected::ArrowParameters),
            Expected::ArrowParameters => (kind == Kind::Block || kind.is_expression()).then_some(
                Expected::Nothing,
            ),
            Expected::Callee => kind.is_expression().then_some(Expected::Expressions),
            Expected::AssignmentTarget if kind == Kind::CompoundPattern => Some(
                Expected::OneExpression,
            ),
            Expected::AssignmentTarget | Expected::UpdateTarget => {
                (kind == Kind::NamePattern || kind == Kind::PlainExpression).then_some(
                    Expected::OneExpression,
                )
            }
            Expected::PatternParts => (kind.is_pattern() || kind == Kind::PropertyName).then_some(
                Expected::PatternParts,
            ),
            Expected::DefaultedPattern => kind.is_pattern().then_some(Expected::OneExpression),
        }
    }
}

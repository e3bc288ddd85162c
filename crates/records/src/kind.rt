ghost use Rattle.std.specs.Prelude.{◌≡◌};
ghost use Rattle.rules.specs.Kinds.{within, expression, statement, pattern, item, declaration, class_member, definition_expression};
ghost use Rattle.records.specs.KindWords.{kind_word, Decodes};

use std::error::Error;
use std::fmt;

/// What a record is. The number of a kind is the first word of its records.
#[derive(Clone, Copy, PartialEq, Eq, Debug)]
pub enum Kind {
    Module = 1,
    Script = 2,
    Import = 3,
    Specifier = 4,
    ExportDeclaration = 5,
    ExportList = 6,
    ExportName = 7,
    ExportDefault = 8,
    Empty = 9,
    Block = 10,
    ExpressionStatement = 11,
    PlainStatement = 12,
    Try = 13,
    FnDeclaration = 14,
    ClassDeclaration = 15,
    VarDeclaration = 16,
    For = 17,
    With = 18,
    Catch = 19,
    Declarator = 20,
    Function = 21,
    Class = 22,
    Method = 23,
    Property = 24,
    StaticBlock = 25,
    Constructor = 26,
    Identifier = 27,
    Literal = 28,
    FunctionExpression = 29,
    ClassExpression = 30,
    Arrow = 31,
    PlainExpression = 32,
    Object = 33,
    Call = 34,
    Delete = 35,
    Assignment = 36,
    NamePattern = 37,
    CompoundPattern = 38,
    DefaultPattern = 39,
    PropertyName = 40,
    ExpressionPattern = 41,
}

/// A word that is no kind's.
#[derive(Clone, Copy, PartialEq, Eq, Debug)]
pub struct UnknownKind(pub u32);

impl TryFrom<u32> for Kind {
    type Error = UnknownKind;

    ghost try_from_gives = { Decodes };

    /// The kind that a record's first word names.
    fn try_from(word: u32) -> Result<Kind, UnknownKind> {
        match word {
            1 => Ok(Kind::Module),
            2 => Ok(Kind::Script),
            3 => Ok(Kind::Import),
            4 => Ok(Kind::Specifier),
            5 => Ok(Kind::ExportDeclaration),
            6 => Ok(Kind::ExportList),
            7 => Ok(Kind::ExportName),
            8 => Ok(Kind::ExportDefault),
            9 => Ok(Kind::Empty),
            10 => Ok(Kind::Block),
            11 => Ok(Kind::ExpressionStatement),
            12 => Ok(Kind::PlainStatement),
            13 => Ok(Kind::Try),
            14 => Ok(Kind::FnDeclaration),
            15 => Ok(Kind::ClassDeclaration),
            16 => Ok(Kind::VarDeclaration),
            17 => Ok(Kind::For),
            18 => Ok(Kind::With),
            19 => Ok(Kind::Catch),
            20 => Ok(Kind::Declarator),
            21 => Ok(Kind::Function),
            22 => Ok(Kind::Class),
            23 => Ok(Kind::Method),
            24 => Ok(Kind::Property),
            25 => Ok(Kind::StaticBlock),
            26 => Ok(Kind::Constructor),
            27 => Ok(Kind::Identifier),
            28 => Ok(Kind::Literal),
            29 => Ok(Kind::FunctionExpression),
            30 => Ok(Kind::ClassExpression),
            31 => Ok(Kind::Arrow),
            32 => Ok(Kind::PlainExpression),
            33 => Ok(Kind::Object),
            34 => Ok(Kind::Call),
            35 => Ok(Kind::Delete),
            36 => Ok(Kind::Assignment),
            37 => Ok(Kind::NamePattern),
            38 => Ok(Kind::CompoundPattern),
            39 => Ok(Kind::DefaultPattern),
            40 => Ok(Kind::PropertyName),
            41 => Ok(Kind::ExpressionPattern),
            _ => Err(UnknownKind(word)),
        }
    }
}

impl From<Kind> for u32 {
    ghost from_gives = { λ k w. w ≡ kind_word k };

    /// The first word of a record of the kind.
    fn from(kind: Kind) -> u32 {
        kind as u32
    }
}

impl fmt::Display for Kind {
    /// Writes the kind in words, for a reader.
    fn fmt<W: fmt::Write>(&self, f: &mut fmt::Formatter<W>) -> fmt::Result {
        f.write_str(self.name())
    }
}

impl fmt::Display for UnknownKind {
    fn fmt<W: fmt::Write>(&self, f: &mut fmt::Formatter<W>) -> fmt::Result {
        write!(f, "no kind has the word {}", self.0)
    }
}

impl Error for UnknownKind {}

impl Kind {
    /// The kind in words, for a reader.
    pub fn name(self) -> &'static str {
        match self {
            Kind::Module => "Module",
            Kind::Script => "Script",
            Kind::Import => "Import",
            Kind::Specifier => "Specifier",
            Kind::ExportDeclaration => "Export declaration",
            Kind::ExportList => "Export list",
            Kind::ExportName => "Export name",
            Kind::ExportDefault => "Export default",
            Kind::Empty => "Empty",
            Kind::Block => "Block",
            Kind::ExpressionStatement => "Expression statement",
            Kind::PlainStatement => "Plain statement",
            Kind::Try => "Try",
            Kind::FnDeclaration => "Fn declaration",
            Kind::ClassDeclaration => "Class declaration",
            Kind::VarDeclaration => "Var declaration",
            Kind::For => "For",
            Kind::With => "With",
            Kind::Catch => "Catch",
            Kind::Declarator => "Declarator",
            Kind::Function => "Function",
            Kind::Class => "Class",
            Kind::Method => "Method",
            Kind::Property => "Property",
            Kind::StaticBlock => "Static block",
            Kind::Constructor => "Constructor",
            Kind::Identifier => "Identifier",
            Kind::Literal => "Literal",
            Kind::FunctionExpression => "Function expression",
            Kind::ClassExpression => "Class expression",
            Kind::Arrow => "Arrow",
            Kind::PlainExpression => "Plain expression",
            Kind::Object => "Object",
            Kind::Call => "Call",
            Kind::Delete => "Delete",
            Kind::Assignment => "Assignment",
            Kind::NamePattern => "Name pattern",
            Kind::CompoundPattern => "Compound pattern",
            Kind::DefaultPattern => "Default pattern",
            Kind::PropertyName => "Property name",
            Kind::ExpressionPattern => "Expression pattern",
        }
    }

    /// Whether such a record is an expression.
    pub fn is_expression(self) -> bool
        ensures { result ≡ expression (kind_word self) }
    {
        self.is_between(Kind::Identifier, Kind::Assignment)
    }

    /// Whether such a record is a statement.
    pub fn is_statement(self) -> bool
        ensures { result ≡ statement (kind_word self) }
    {
        self.is_between(Kind::Empty, Kind::With)
    }

    /// Whether such a record is a pattern. A Property name is none by itself.
    pub fn is_pattern(self) -> bool
        ensures { result ≡ pattern (kind_word self) }
    {
        self.is_between(Kind::NamePattern, Kind::DefaultPattern) || self == Kind::ExpressionPattern
    }

    /// Whether such a record may stand in a Module.
    pub fn is_item(self) -> bool
        ensures { result ≡ item (kind_word self) }
    {
        self.is_statement()
            || matches!(
                self,
                Kind::Import | Kind::ExportDeclaration | Kind::ExportList | Kind::ExportDefault
            )
    }

    /// Whether such a record may stand in an Export declaration.
    pub fn is_declaration(self) -> bool
        ensures { result ≡ declaration (kind_word self) }
    {
        self.is_between(Kind::FnDeclaration, Kind::VarDeclaration)
    }

    /// Whether such a record may stand in a Class.
    pub fn is_class_member(self) -> bool
        ensures { result ≡ class_member (kind_word self) }
    {
        self.is_between(Kind::Method, Kind::Constructor)
    }

    /// Whether such a record is a function or class expression.
    pub fn is_definition_expression(self) -> bool
        ensures { result ≡ definition_expression (kind_word self) }
    {
        self == Kind::FunctionExpression || self == Kind::ClassExpression
    }

    // By words: of a derived order the check would have to be told, kind by kind, that it is the words' own.
    /// Whether the kind stands between two others, or is one of them.
    fn is_between(self, low: Kind, high: Kind) -> bool
        ensures { result ≡ within (kind_word low) (kind_word high) (kind_word self) }
    {
        let word = u32::from(self);
        u32::from(low) <= word && word <= u32::from(high)
    }
}

use records::write::{set_first, set_next};
use records::{Kind, MOST_NESTING, ROOT};
use std::alloc::{AllocError, Global};

/// The symbol of the first name: those below it have meanings of their own.
const FIRST_SYMBOL: u32 = 4;

/// The symbol of `eval`.
const EVAL: u32 = 2;

/// The mark of all names.
const MARK: u32 = 2;

/// A place for each nesting, which is counted from 1, and for the one below the last.
const PLACES: usize = MOST_NESTING + 2;

/// A tree that grows record by record, in walk order.
#[derive(Drop)]
pub(crate) struct Planting {
    words: Vec<u32>,
    number: u32,
    /// For each nesting the last record of the chain that may go on there, or 0 where one is to begin.
    last: [u32; PLACES],
}

impl Planting {
    /// A Module without items.
    pub(crate) fn module(heap: Global) -> Result<Planting, AllocError> {
        let mut planting = Planting {
            words: Vec::new(heap),
            number: 0,
            last: [0; PLACES],
        };
        planting.add(ROOT, Kind::Module)?;
        Ok(planting)
    }

    /// The words of the tree.
    pub(crate) fn into_words(self) -> Vec<u32> {
        let Planting {
            words,
            number: _,
            last: _,
        } = self;
        words
    }

    /// A record without a name.
    pub(crate) fn add(&mut self, nesting: u32, kind: Kind) -> Result<(), AllocError> {
        self.put(nesting, [u32::from(kind), 0, 0, 0, 0, 0])
    }

    /// A record with the name of this number.
    pub(crate) fn add_named(
        &mut self,
        nesting: u32,
        kind: Kind,
        name: u32,
    ) -> Result<(), AllocError> {
        self.add_symbol(nesting, kind, name.wrapping_add(FIRST_SYMBOL))
    }

    /// So many records with names, of which the first has this number.
    pub(crate) fn add_row(
        &mut self,
        nesting: u32,
        kind: Kind,
        first: u32,
        count: u32,
    ) -> Result<(), AllocError> {
        for name in 0..count {
            self.add_named(nesting, kind, first.wrapping_add(name))?;
        }
        Ok(())
    }

    /// A record with a symbol.
    fn add_symbol(&mut self, nesting: u32, kind: Kind, symbol: u32) -> Result<(), AllocError> {
        self.put(nesting, [u32::from(kind), 0, symbol, MARK, 0, 0])
    }

    /// A Fn declaration with its Function and its Block.
    pub(crate) fn add_function(&mut self, nesting: u32, name: u32) -> Result<(), AllocError> {
        self.add_function_of(nesting, name, 0, 0)
    }

    /// A Fn declaration with its Function, which has so many parameters, and its Block.
    pub(crate) fn add_function_of(
        &mut self,
        nesting: u32,
        name: u32,
        first: u32,
        count: u32,
    ) -> Result<(), AllocError> {
        self.add_named(nesting, Kind::FnDeclaration, name)?;
        self.add(nesting.wrapping_add(1), Kind::Function)?;
        self.add_row(nesting.wrapping_add(2), Kind::NamePattern, first, count)?;
        self.add(nesting.wrapping_add(2), Kind::Block)
    }

    /// A Class declaration with its Class, which has a Constructor, and that one's Block.
    pub(crate) fn add_class(&mut self, nesting: u32, name: u32) -> Result<(), AllocError> {
        self.add_named(nesting, Kind::ClassDeclaration, name)?;
        self.add(nesting.wrapping_add(1), Kind::Class)?;
        self.add(nesting.wrapping_add(2), Kind::Constructor)?;
        self.add(nesting.wrapping_add(3), Kind::Block)
    }

    /// A statement that calls a name.
    pub(crate) fn add_call(&mut self, nesting: u32, name: u32) -> Result<(), AllocError> {
        self.add_call_of(nesting, name.wrapping_add(FIRST_SYMBOL))
    }

    /// A statement that calls `eval`.
    pub(crate) fn add_eval(&mut self, nesting: u32) -> Result<(), AllocError> {
        self.add_call_of(nesting, EVAL)
    }

    /// A statement that calls what bears a symbol.
    fn add_call_of(&mut self, nesting: u32, symbol: u32) -> Result<(), AllocError> {
        self.add(nesting, Kind::ExpressionStatement)?;
        self.add(nesting.wrapping_add(1), Kind::Call)?;
        self.add_symbol(nesting.wrapping_add(2), Kind::Identifier, symbol)
    }

    /// A statement that reads so many names.
    pub(crate) fn add_readings(
        &mut self,
        nesting: u32,
        first: u32,
        count: u32,
    ) -> Result<(), AllocError> {
        self.add(nesting, Kind::ExpressionStatement)?;
        self.add(nesting.wrapping_add(1), Kind::PlainExpression)?;
        self.add_row(nesting.wrapping_add(2), Kind::Identifier, first, count)
    }

    /// Puts a record behind the others, and links it.
    fn put(&mut self, nesting: u32, record: [u32; 6]) -> Result<(), AllocError> {
        self.words.extend_from_slice(&record)?;
        self.number = self.number.wrapping_add(1);
        self.link(nesting as usize);
        Ok(())
    }

    /// Links the last record to the chain of its nesting, which goes on or begins.
    fn link(&mut self, nesting: usize) {
        let above = self.last_at(nesting.saturating_sub(1));
        let before = self.last_at(nesting);
        if before == 0 {
            set_first(&mut self.words, above, self.number);
        } else {
            set_next(&mut self.words, before, self.number);
        }
        self.note(nesting, self.number);
        self.note(nesting.saturating_add(1), 0);
    }

    /// The last record of the chain that may go on at a nesting.
    fn last_at(&self, nesting: usize) -> u32 {
        self.last.get(nesting).copied().unwrap_or(0)
    }

    /// Makes a record the last one of the chain at a nesting.
    fn note(&mut self, nesting: usize, number: u32) {
        if let Some(last) = self.last.get_mut(nesting) {
            *last = number;
        }
    }
}

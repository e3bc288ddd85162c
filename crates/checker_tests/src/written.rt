//! Trees written as text: `12!1(28,37:5)` is a record of kind 12 with flags 1 over one of kind 28 and one of kind 37 with
//! symbol 5; `37:5:2` has mark 2 besides. Records are numbered from 1 as they stand in the text.
use records::RECORD_WORDS;
use records::write::{set_first, set_next};

/// How many words a written tree may have.
pub const ROOM: usize = 96;

// A test hands in no memory for a Vec, so the open records stand in an array.
/// The tree written so far: the record that is being written, and those above it and itself by their depth.
#[derive(Drop)]
pub struct Written {
    pub words: [u32; ROOM],
    pub record: u32,
    field: usize,
    open: [u32; 16],
    depth: usize,
}

impl From<&str> for Written {
    /// The tree that the text says.
    fn from(text: &str) -> Written {
        let mut tree = Written {
            words: [0; ROOM],
            record: 1,
            field: KIND,
            open: [1; 16],
            depth: 0,
        };
        for byte in text.bytes() {
            match byte {
                b'(' => tree.descend(),
                b',' => tree.follow(),
                b')' => tree.depth = tree.depth.wrapping_sub(1),
                b'!' => tree.field = FLAGS,
                b':' => tree.field = if tree.field < SYMBOL { SYMBOL } else { MARK },
                _ => tree.digit(byte),
            }
        }
        tree
    }
}

impl Written {
    /// A first child of the record begins.
    fn descend(&mut self) {
        let parent = self.record;
        self.record = self.record.wrapping_add(1);
        set_first(&mut self.words, parent, self.record);
        self.depth = self.depth.wrapping_add(1);
        self.begin();
    }

    /// A record begins after the one that stands at this depth.
    fn follow(&mut self) {
        let before = self.open.get(self.depth).copied().unwrap_or(0);
        self.record = self.record.wrapping_add(1);
        set_next(&mut self.words, before, self.record);
        self.begin();
    }

    /// The record stands at this depth.
    fn begin(&mut self) {
        if let Some(slot) = self.open.get_mut(self.depth) {
            *slot = self.record;
        }
        self.field = KIND;
    }

    /// One more digit of the word that is being written.
    fn digit(&mut self, byte: u8) {
        let word = self.words.get(self.slot(self.field)).copied().unwrap_or(0);
        self.put(
            self.field,
            word.wrapping_mul(10)
                .wrapping_add(u32::from(byte.wrapping_sub(b'0'))),
        );
    }

    /// Writes a word of the record.
    fn put(&mut self, field: usize, value: u32) {
        let slot = self.slot(field);
        if let Some(word) = self.words.get_mut(slot) {
            *word = value;
        }
    }

    /// Where a word of the record stands.
    fn slot(&self, field: usize) -> usize {
        (self.record as usize)
            .wrapping_sub(1)
            .wrapping_mul(RECORD_WORDS)
            .wrapping_add(field)
    }
}

const KIND: usize = 0;

const FLAGS: usize = 1;

const SYMBOL: usize = 2;

const MARK: usize = 3;

/// A table has no whole row free for the row that it needs, with the record that needs it.
#[derive(Clone, Copy, PartialEq, Eq, Debug)]
pub enum TableFault {
    Declared(u32),
    Names(u32),
    Edges(u32),
}

ghost use Rattle.std.specs.Prelude.{◌≡◌, ℕ, ◌<◌, true, List, length};
ghost use Rattle.tables.specs.declared.fault.TableFault.{TableFault};

use crate::fault::TableFault;

/// The rows of a table: how many words each takes, and where its key stands in them.
pub trait Row {
    type Key: Eq + Copy;

    /// The words of a row.
    const WIDTH: usize;

    ghost WIDTH: { ℕ };

    ghost key_of: { List ℕ → Self.Key };

    ghost fresh: { Self.Key → List ℕ };

    ghost full: { ℕ → TableFault };

    // `key`, `write` and `fault` are an expression in each table: a function that tables share would be longer.
    /// The key of a row.
    fn key(row: &[u32]) -> Self::Key
        requires { length row.now ≡ WIDTH }
        ensures { result ≡ key_of row.now };

    /// Makes a row one with this key, and with 0 in every other word.
    fn write(row: &mut [u32], key: Self::Key)
        requires { length row.old ≡ WIDTH }
        ensures { row.new ≡ fresh key };

    /// The fault of a table without a free row, which a record needs.
    fn fault(at: u32) -> TableFault
        ensures { result ≡ full at };

    ghost some: { 0 < WIDTH };

    ghost whole: { (k : Self.Key) → length (fresh k) ≡ WIDTH };

    ghost reads: { (k : Self.Key) → Self.Key.eq k (key_of (fresh k)) ≡ true };
}

// The cases of a text, one after another.
ghost use Rattle.std.specs.Prelude.{◌+◌, ◌^◌, ◌<◌, length};
ghost use Rattle.text.specs.Reader.{Left, left};

mod reader;

use std::marker::Model;

/// A text of cases, with the lines that are still to be read.
#[derive(Drop)]
pub struct Cases<'a> {
    rest: &'a [u8],
    line: usize,
}

impl<'a> Model for Cases<'a> {
    ghost Value = { Left };

    ghost view = { λ s. left s.rest.now s.line };

    ghost invariant = { λ s. s.line + length s.rest.now < 2 ^ 64 };
}

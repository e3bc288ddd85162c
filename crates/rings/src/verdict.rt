ghost use Rattle.std.specs.Prelude.{◌≡◌, length};
ghost use Rattle.rings.specs.Marking.{entered_at, Ruled};

use crate::members::ByLabel;
use tables::{Flag, Names};

/// Rules on each label, whether its nodes are a closed ring: there are two or more, and none is an entry or marked as one that an edge
/// enters from outside. A closed ring's label gets 1, and any other 0: a number, since the words are lent.
pub fn mark_closed(names: &[u32], by_label: ByLabel<'_, '_>, marks: &[u32], closed: &mut [u32])
    requires closed_long { length closed.old ≡ length by_label.firsts.now }
    requires marks_long { length marks.now ≡ length by_label.labels.now }
    ensures { Ruled (entered_at names.now) by_label.entry.labels.now marks.now closed.new (length closed.old) }
{
    // A rule of docs/DECISIONS.md: nested loops tell both facts of a ring at once, left by a label at the first that speaks against it.
    'cycles: for (cycle, ruled) in closed.iter_mut().enumerate() {
        *ruled = 0;
        if by_label.nodes(cycle).nth(1).is_none() {
            continue;
        }
        for node in by_label.nodes(cycle) {
            if Names::is(names, node + 1, Flag::Entry) || marks[node] != 0 {
                continue 'cycles;
            }
        }
        *ruled = 1;
    }
}

ghost use Rattle.std.specs.Prelude.{◌≡◌, ◌*◌, ◌≤◌, List, ℕ, [], length};
ghost use Rattle.rules.specs.Calls.{zeroed};
ghost use Rattle.rules.specs.Counting.{marks};
ghost use Rattle.rules.specs.Names.{names_of, distinct, bound, declared_below};
ghost use Rattle.rules.specs.Refusals.{Says};
ghost use Rattle.rules.specs.Tables.{names_width};
ghost use Rattle.rules.specs.Tree.{reached};
ghost use Rattle.records.specs.Chains.{as_chain, head_of_node};
ghost use Rattle.records.specs.Ids.{name_of_id};
ghost use Rattle.tables.specs.Faults.{number as number_of, place as place_of};
ghost use Rattle.data.specs.Events.{tables};
ghost use Rattle.data.specs.Filling.{fill_words};
ghost use Rattle.marks.specs.Marking.{Marking, marking, mark_each, Once, once, mark_once, mark_name};

use crate::seen::Noted;
use data::{Event, count_name};
use names::{NameSink, bound_names, declared_below};
use records::{Id, Node};
use tables::{TableFault, VarInfo};

/// What a mark adds to a name's counts.
const MARK: VarInfo = VarInfo {
    usage: 1,
    assign: 0,
};

/// Marks each name as it comes; the scope `at` marks it.
#[derive(Drop)]
struct EachName<'t> {
    names: &'t mut [u32],
    at: u32,
}

impl<'t> NameSink for EachName<'t> {
    type Fault = TableFault;

    ghost State = { Marking };

    ghost Fixed = { ℕ × List ℕ };

    ghost held = { λ s. marking s.names.now s.at };

    ghost fixed = { λ s. (s.names.ghost_name, zeroed names_width s.names.now) };

    ghost takes = { mark_each };

    ghost number = { number_of };

    ghost place = { place_of };

    fn take(&mut self, bearer: Node<'_>) -> Result<(), TableFault> {
        mark_name(self.names, bearer.record.id(), self.at)
    }
}

// A sink of its own: one for both would pass names on to a second sink, and be no shorter.
/// Marks each name that comes for the first time; the scope `at` marks it. `seen` holds the names that came.
#[derive(Drop)]
struct FirstOfName<'t, 's, 'n> {
    names: &'t mut [u32],
    seen: &'s mut Noted<'n>,
    at: u32,
}

impl<'t, 's, 'n> NameSink for FirstOfName<'t, 's, 'n> {
    type Fault = TableFault;

    ghost State = { Once };

    ghost Fixed = { ℕ × List ℕ };

    ghost held = { λ s. once s.names.now s.seen.now s.at };

    ghost fixed = { λ s. (s.names.ghost_name, zeroed names_width s.names.now) };

    ghost takes = { mark_once };

    ghost number = { number_of };

    ghost place = { place_of };

    fn take(&mut self, bearer: Node<'_>) -> Result<(), TableFault> {
        let id = bearer.record.id();
        if !self.seen.note(id) {
            return Ok(());
        }
        mark_name(self.names, id, self.at)
    }
}

/// Marks a name: one usage. The scope `at` marks it.
fn mark_name(names: &mut [u32], id: Id, at: u32) -> Result<(), TableFault>
    ensures is { Says (mark_name (name_of_id id) at names.old) (λ _. names.new) number_of place_of result }
    ensures behind { zeroed names_width names.new ≡ zeroed names_width names.old }
{
    let event = Event {
        id,
        by: MARK,
        entry: false,
        at,
    };
    count_name(names, event)
}

/// Marks each distinct name declared below the scope `node`, in walk order. `seen` is work memory for the names marked so far.
pub fn mark_declared(node: Node<'_>, names: &mut [u32], seen: &mut [u32]) -> Result<(), TableFault>
    requires room { 2 * reached (as_chain node.below) ≤ length seen.old }
    ensures marks { (edges : List ℕ) → Says (fill_words (marks node.entry.number (distinct [] (names_of (declared_below (head_of_node node.entry) (as_chain node.entry.below))))) (tables names.old edges)) (λ _. tables names.new edges) number_of place_of result }
    ensures behind { zeroed names_width names.new ≡ zeroed names_width names.old }
{
    let mut seen = Noted::none(seen);
    let mut sink = FirstOfName {
        names,
        seen: &mut seen,
        at: node.number,
    };
    declared_below(node, &mut sink)
}

/// Marks each name that the parameters of the scope `node` bind, once an occurrence.
pub fn mark_parameters(node: Node<'_>, names: &mut [u32]) -> Result<(), TableFault>
    ensures marks { (edges : List ℕ) → Says (fill_words (marks node.entry.number (names_of (bound (as_chain node.entry.below)))) (tables names.old edges)) (λ _. tables names.new edges) number_of place_of result }
    ensures behind { zeroed names_width names.new ≡ zeroed names_width names.old }
{
    let mut sink = EachName {
        names,
        at: node.number,
    };
    bound_names(node.below, &mut sink)
}

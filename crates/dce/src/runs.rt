ghost use Rattle.std.specs.Prelude.{◌≡◌, true, false, map, IfOk, MatchResult};
ghost use Rattle.rules.specs.Calls as book;
ghost use Rattle.rules.specs.Calls.{calls, final};
ghost use Rattle.laws.specs.Law.{Law, begun_on};
ghost use Rattle.verdicts.specs.Grounds.{config_of};
ghost use Rattle.dce.specs.Calls.{lengths_fit, handed, config_by, state, state_by};
ghost use Rattle.dce.specs.Faults.{NotBegun};
ghost use Rattle.dce.specs.Running.{call_of, answer_of};

use crate::fault::{BeginFault, LengthsFault, PassFault, RepeatFault};
use crate::lengths::check_lengths;
use crate::repeat::Repeated;
use crate::tree_shaker::TreeShaker;
use judge::Judge;
use std::alloc::Global;
use verdicts::Config;

/// A call on a shaker that was begun.
#[derive(Clone, Copy, PartialEq, Eq, Debug)]
pub enum Call {
    Pass,
    Reset,
    Repeat,
}

/// What a call answered.
#[derive(Clone, Copy, PartialEq, Eq, Debug)]
pub enum Answer {
    Pass(Result<bool, PassFault>),
    Reset(Result<(), LengthsFault>),
    Repeat(Result<Repeated, RepeatFault>),
}

/// What a list of calls answered, one after another, and whether something was changed since the last reset.
#[derive(Drop)]
pub struct Ran {
    pub answers: Vec<Answer>,
    pub changed: bool,
}

impl<J: Judge> TreeShaker<J> {
    /// Makes a call.
    pub fn call(
        &mut self,
        call: Call,
        tree: &mut [u32],
        declared: &mut [u32],
        names: &mut [u32],
        edges: &mut [u32],
        retain: &[u32],
    ) -> Answer
        ensures answer { (book.call (config_by J.Judge.acts self.old retain.now) (call_of call) (state tree.old declared.old names.old edges.old self.old)).answer ≡ answer_of result }
        ensures state { state tree.new declared.new names.new edges.new self.new ≡ (book.call (config_by J.Judge.acts self.old retain.now) (call_of call) (state tree.old declared.old names.old edges.old self.old)).state }
        ensures config { self.new.config ≡ self.old.config }
        ensures judge { self.new.judge ≡ self.old.judge }
    {
        match call {
            Call::Pass => Answer::Pass(self.pass(tree, declared, names, edges, retain)),
            Call::Reset => Answer::Reset(self.reset(tree, declared, names, edges, retain)),
            Call::Repeat => Answer::Repeat(self.repeat(tree, declared, names, edges, retain)),
        }
    }
}

/// Begins a shaker on tree and tables, makes the calls of a list one after another, and gives what each answered.
///
/// The law about runs holds of every such run: the order of top-level items does not matter; a counted reference that is
/// left to a name whose declaration was taken stands inside a remaining declaration of the same closed ring; a completed
/// repeat makes no more passes than its first check reached records, and leaves no removable function unused.
pub fn run<J: Judge + Drop>(
    heap: Global,
    config: Config,
    judge: J,
    tree: &mut [u32],
    declared: &mut [u32],
    names: &mut [u32],
    edges: &mut [u32],
    retain: &[u32],
    list: &[Call],
) -> Result<Ran, BeginFault>
    ensures begun { IfOk result (λ _. lengths_fit tree.old declared.old names.old edges.old retain.now ≡ true) }
    ensures answers { MatchResult result (λ ran. map answer_of ran.answers.items ≡ map (λ a. a.answer) (calls (config_of config (J.Judge.acts judge) retain.now) (map call_of list.now) (begun_on (handed tree.old declared.old names.old edges.old)))) (λ e. NotBegun (lengths_fit tree.old declared.old names.old edges.old retain.now) e) }
    ensures state { MatchResult result (λ ran. state_by tree.new declared.new names.new edges.new ran.changed ≡ final (config_of config (J.Judge.acts judge) retain.now) (map call_of list.now) (begun_on (handed tree.old declared.old names.old edges.old))) (λ _. state_by tree.new declared.new names.new edges.new false ≡ state_by tree.old declared.old names.old edges.old false) }
    ensures law { Law (config_of config (J.Judge.acts judge) retain.now) (map call_of list.now) (handed tree.old declared.old names.old edges.old) }
{
    check_lengths(tree, declared, names, edges, retain)?;
    let mut answers = vec![in heap; Answer::Reset(Ok(())); list.len()]?;
    let mut shaker = TreeShaker::begin(heap, config, judge, tree, declared, names, edges, retain)?;
    let places = answers.as_mut_slice();
    for (place, call) in list.iter().enumerate() {
        places[place] = shaker.call(*call, tree, declared, names, edges, retain);
    }
    Ok(Ran {
        answers,
        changed: shaker.changed,
    })
}

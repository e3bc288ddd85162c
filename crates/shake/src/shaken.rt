// A case's tree, shaken by a run of one repeat.
ghost use Rattle.std.specs.Prelude.{◌≡◌, ◌&&◌, [], ◌∷◌, map, nat_le};
ghost use Rattle.rules.specs.Calls.{Repeated as BookRepeated, most_table_words};
ghost use Rattle.rules.specs.Calls.Answer.{repeat_answer};
ghost use Rattle.dce.specs.Calls.{told};
ghost use Rattle.dce.specs.Running.{answer_of};

use crate::handed::Handed;
use crate::refused::Refused;
use dce::{Answer, BeginFault, Call, LengthsFault, MOST_TABLE_WORDS, RepeatFault, Repeated, run};
use judge::Judge;
use std::alloc::{AllocError, Global};
use text::{Case, TableLengths};
use verdicts::Config;

/// What a repeat came to: the passes that it made, the records that its first check reached or why it was refused, and
/// the words of the tree that it left.
#[derive(Drop)]
pub struct Shaken {
    pub passes: u32,
    pub reached: Result<u32, Refused>,
    pub tree: Vec<u32>,
}

impl Shaken {
    /// Shakes a case's tree.
    pub fn of<J: Judge + Drop>(
        heap: Global,
        case: &Case,
        config: Config,
        judge: J,
    ) -> Result<Shaken, AllocError> {
        if !tables_fit(case.tables) {
            return Ok(Shaken {
                passes: 0,
                reached: Err(Refused::Begin(BeginFault::Lengths(LengthsFault))),
                tree: case.tree.clone()?,
            });
        }
        let mut handed = Handed::of(heap, case)?;
        let ran = run(
            heap,
            config,
            judge,
            handed.tree.as_mut_slice(),
            handed.declared.as_mut_slice(),
            handed.names.as_mut_slice(),
            handed.edges.as_mut_slice(),
            case.retain.as_slice(),
            &[Call::Repeat],
        );
        let (passes, reached) = match ran {
            Err(fault) => (0, Err(Refused::Begin(fault))),
            Ok(ran) => match repeated(ran.answers.as_slice()) {
                Ok(repeated) => (repeated.passes, Ok(repeated.reached)),
                Err(fault) => (fault.passes, Err(Refused::Repeat(fault))),
            },
        };
        Ok(Shaken {
            passes,
            reached,
            tree: handed.tree,
        })
    }
}

/// Whether tables may be so long: memory is taken for no others, since begin refuses them for their lengths.
fn tables_fit(tables: TableLengths) -> bool
    ensures { result ≡ (nat_le tables.declared most_table_words && (nat_le tables.names most_table_words && nat_le tables.edges most_table_words)) }
{
    tables.declared as usize <= MOST_TABLE_WORDS
        && tables.names as usize <= MOST_TABLE_WORDS
        && tables.edges as usize <= MOST_TABLE_WORDS
}

/// The one answer, which is a repeat's.
fn repeated(answers: &[Answer]) -> Result<Repeated, RepeatFault>
    requires { (told : BookRepeated) × (map answer_of answers.now ≡ repeat_answer told ∷ []) }
    ensures { map answer_of answers.now ≡ repeat_answer (told result) ∷ [] }
{
    match answers {
        [Answer::Repeat(repeated)] => *repeated,
        _ => unreachable!(),
    }
}

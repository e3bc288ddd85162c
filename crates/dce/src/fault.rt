ghost use Rattle.std.specs.Prelude.{◌≡◌};
ghost use Rattle.dce.specs.declared.fault.BeginFault.TheVariants.{Lengths as begin_lengths, Memory};
ghost use Rattle.dce.specs.declared.fault.RepeatFault.{RepeatFault};
ghost use Rattle.dce.specs.declared.fault.PassFault.TheVariants.{Lengths, Check, Count};

use analyzer::CountFault;
use checker::CheckFault;
use std::alloc::AllocError;

/// Tree, tables or retain list are too long, or the tree has no words or no whole number of records.
#[derive(Clone, Copy, PartialEq, Eq, Debug)]
pub struct LengthsFault;

/// Why a shaker is not begun.
#[derive(Clone, Copy, PartialEq, Eq, Debug)]
pub enum BeginFault {
    Lengths(LengthsFault),
    /// There is no memory for the work of the calls.
    Memory,
}

impl From<LengthsFault> for BeginFault {
    ghost from_gives = { λ x y. y ≡ begin_lengths x };

    fn from(fault: LengthsFault) -> BeginFault {
        BeginFault::Lengths(fault)
    }
}

impl From<AllocError> for BeginFault {
    ghost from_gives = { λ _ y. y ≡ Memory };

    fn from(_: AllocError) -> BeginFault {
        BeginFault::Memory
    }
}

/// Why a pass is refused.
#[derive(Clone, Copy, PartialEq, Eq, Debug)]
pub enum PassFault {
    Lengths(LengthsFault),
    Check(CheckFault),
    Count(CountFault),
}

impl From<LengthsFault> for PassFault {
    ghost from_gives = { λ x y. y ≡ Lengths x };

    fn from(fault: LengthsFault) -> PassFault {
        PassFault::Lengths(fault)
    }
}

impl From<CheckFault> for PassFault {
    ghost from_gives = { λ x y. y ≡ Check x };

    fn from(fault: CheckFault) -> PassFault {
        PassFault::Check(fault)
    }
}

impl From<CountFault> for PassFault {
    ghost from_gives = { λ x y. y ≡ Count x };

    fn from(fault: CountFault) -> PassFault {
        PassFault::Count(fault)
    }
}

/// Why a repeat is refused, and how many passes it had made.
#[derive(Clone, Copy, PartialEq, Eq, Debug)]
pub struct RepeatFault {
    pub fault: PassFault,
    pub passes: u32,
}

impl From<PassFault> for RepeatFault {
    ghost from_gives = { λ x y. y ≡ record { fault = x; passes = 0 } };

    /// The first pass was refused.
    fn from(fault: PassFault) -> RepeatFault {
        RepeatFault { fault, passes: 0 }
    }
}

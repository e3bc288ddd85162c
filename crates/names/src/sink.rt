ghost use Rattle.std.specs.Prelude.{◌≡◌, ℕ};
ghost use Rattle.rules.specs.Tree.{Head};
ghost use Rattle.rules.specs.Refusals.{Outcome, Says};
ghost use Rattle.records.specs.Chains.{head_of_node};

use records::Node;

/// What takes names, one record that bears a name after another, until it refuses one.
/// `State` is what it has come to, which `takes` leads on from; `number` and `place` are a fault as the book's refusal.
/// `fixed` is what no name changes, such as the memory that it lends.
pub trait NameSink {
    /// Why a name is refused.
    type Fault;

    ghost State: { Type 0 };

    ghost Fixed: { Type 0 };

    ghost held: { Self → State };

    ghost fixed: { Self → Fixed };

    ghost takes: { Head → State → Outcome State };

    ghost number: { Self.Fault → ℕ };

    ghost place: { Self.Fault → ℕ };

    /// Takes the name that a record bears.
    fn take(&mut self, bearer: Node<'_>) -> Result<(), Self::Fault>
        ensures names { Says (takes (head_of_node bearer.entry) (held self.old)) (λ _. held self.new) number place result }
        ensures stays { fixed self.new ≡ fixed self.old };
}

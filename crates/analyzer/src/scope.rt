ghost use Rattle.std.specs.Prelude.{◌≡◌, ◌≤◌};
ghost use Rattle.rules.specs.Counting.{opens};
ghost use Rattle.records.specs.Reads.{head_of};

use records::{Id, Kind, Record};

/// What a Name pattern does where it stands.
#[derive(Clone, Copy)]
pub(crate) enum Role {
    /// Nothing, in a Declarator's pattern.
    Declared,
    Written,
    /// Both, as the target of a compound Assignment.
    ReadAndWritten,
}

/// What surrounds a place: where in the path the names that hold a reference begin and end, whether the innermost scope
/// has put no name on the path yet, the names of the innermost Fn declaration and Class declaration, and the role of a
/// Name pattern.
#[derive(Clone, Copy)]
pub(crate) struct Scope {
    pub(crate) start: usize,
    pub(crate) len: usize,
    // A flag beside `start`: until the innermost scope puts a name on the path, those from `start` on still hold a reference.
    pub(crate) fresh: bool,
    pub(crate) cur_fn_id: Option<Id>,
    pub(crate) cur_class_id: Option<Id>,
    pub(crate) role: Role,
    ghost ordered: { start ≤ len },
}

impl Scope {
    ghost use Rattle.std.specs.Prelude.{◌+◌, ◌<◌, false, ◌||◌, List, length, take, drop};
    ghost use Rattle.rules.specs.Names.{among};
    ghost use Rattle.records.specs.declared.id.Id.{Id};
    ghost use Rattle.records.specs.Ids.{name_of_id};
    ghost use Rattle.analyzer.specs.Scopes.{one, IsOutermost, held_with, here, here_inside};

    /// What surrounds the root: the outermost scope.
    pub(crate) fn outermost() -> Scope
        ensures { IsOutermost result }
    {
        Scope {
            start: 0,
            len: 0,
            fresh: true,
            cur_fn_id: None,
            cur_class_id: None,
            role: Role::Written,
        }
    }

    /// Whether a name is the innermost function's or class's.
    pub(crate) fn is_own(&self, id: Id) -> bool
        ensures { result ≡ (among (name_of_id id) (one self.now.cur_fn_id) || among (name_of_id id) (one self.now.cur_class_id)) }
    {
        self.cur_fn_id == Some(id) || self.cur_class_id == Some(id)
    }

    /// Puts a name on the innermost scope's path.
    fn push(&mut self, path: &mut [Id], id: Id)
        requires { self.old.len < length path.old }
        ensures held { drop self.new.start (take self.new.len path.new) ≡ held_with self.old.fresh (drop self.old.start (take self.old.len path.old)) id }
        ensures fresh { self.new.fresh ≡ false }
        ensures function { self.new.cur_fn_id ≡ self.old.cur_fn_id }
        ensures class { self.new.cur_class_id ≡ self.old.cur_class_id }
        ensures role { self.new.role ≡ self.old.role }
        ensures len { self.new.len ≡ self.old.len + 1 }
        ensures kept { (q : List Id) → take self.new.len q ≡ take self.new.len path.new → take self.old.len q ≡ take self.old.len path.old }
    {
        let len = self.len;
        if self.fresh {
            self.start = len;
            self.fresh = false;
        }
        path[len] = id;
        self.len = len + 1;
    }

    /// Goes from what surrounds a record to what surrounds its children.
    pub(crate) fn enter(&mut self, path: &mut [Id], node: Record)
        requires { self.old.len < length path.old }
        ensures here { here self.new path.new ≡ here_inside (here self.old path.old) (head_of 0 node) }
        ensures len { self.new.len ≤ self.old.len + 1 }
        ensures kept { (q : List Id) → take self.new.len q ≡ take self.new.len path.new → take self.old.len q ≡ take self.old.len path.old }
    {
        let id = node.id();
        let role = self.role.inside(node);
        if node.kind == Kind::FnDeclaration {
            self.push(path, id);
            self.cur_fn_id = Some(id);
        } else if node.kind == Kind::ClassDeclaration {
            self.push(path, id);
            self.cur_class_id = Some(id);
        } else if opens_scope(node) {
            self.fresh = true;
        }
        self.role = role;
    }
}

impl Role {
    ghost use Rattle.rules.specs.Counting.{role_in};
    ghost use Rattle.analyzer.specs.Scopes.{role_of};

    /// The role of a Name pattern among the children of a record.
    fn inside(self, node: Record) -> Role
        ensures { role_of result ≡ role_in (role_of self) (head_of 0 node) }
    {
        if node.kind == Kind::Declarator {
            Role::Declared
        } else if node.kind == Kind::Assignment && node.is_flagged() {
            Role::ReadAndWritten
        } else if node.kind == Kind::CompoundPattern || node.kind == Kind::DefaultPattern {
            self
        } else {
            Role::Written
        }
    }
}

/// Whether a record opens a scope.
fn opens_scope(node: Record) -> bool
    ensures { result ≡ opens (head_of 0 node) }
{
    node.kind == Kind::Function || node.kind == Kind::Arrow
}

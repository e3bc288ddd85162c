ghost use Rattle.std.specs.Prelude.{◌≡◌, ◌≤◌, vec_len};
ghost use Rattle.dce.specs.Discounting.{most_work};

use verdicts::Config;

/// A tree shaker: its settings, its judge, whether it has changed something since it was begun or reset, and the work
/// memory of its calls.
#[derive(Drop)]
pub struct TreeShaker<J> {
    pub(crate) config: Config,
    pub(crate) judge: J,
    pub(crate) changed: bool,
    pub(crate) work: Vec<u32>,
    ghost long: { most_work ≤ vec_len work },
}

impl<J> TreeShaker<J> {
    /// Whether something was changed since the shaker was begun or reset.
    pub fn changed(&self) -> bool
        ensures { result ≡ self.now.changed }
    {
        self.changed
    }
}

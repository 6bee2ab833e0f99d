//! The calls on a port, for contracts alone: none of them is kept.
ghost use Rattle.std.specs.Prelude.{◌≡◌, true, false, ◌++◌, ◌∷◌, []};
ghost use Rattle.port_bank.specs.Calls.{calls_of};
ghost use Rattle.port_bank.specs.Calls.Call.{Post, Collect};

use std::snapshot::Snapshot;

/// The calls of `post` that had memory and those of `collect`, each by its link, which contracts
/// alone see.
#[derive(Drop)]
pub enum Calls {
    None,
    Post(Snapshot<Calls>, Snapshot<u32>),
    Collect(Snapshot<Calls>, Snapshot<u32>),
}

impl Calls {
    /// Appends a post on a link, if it had memory.
    pub fn note_post(&mut self, link: u32, had_memory: bool)
        ensures post { had_memory ≡ true → calls_of self.new ≡ calls_of self.old ++ Post link ∷ [] }
        ensures none { had_memory ≡ false → self.new ≡ self.old }
    {
        if had_memory {
            *self = Calls::Post(Snapshot::of(self), Snapshot::of(&link));
        }
    }

    /// Appends a collect from a link.
    pub fn note_collect(&mut self, link: u32)
        ensures { calls_of self.new ≡ calls_of self.old ++ Collect link ∷ [] }
    {
        *self = Calls::Collect(Snapshot::of(self), Snapshot::of(&link));
    }
}

// Put at the end, take from the front.
ghost use Rattle.std.specs.Prelude.{◌≡◌, [], ◌∷◌, ◌++◌, Some, None, Ok, Err};
ghost use Rattle.fabric.specs.Refusals.{shown};
ghost use Rattle.line.specs.Queues.{oldest, put_verdict};
ghost use Rattle.line.specs.Runs.{used, Continues};
ghost use Rattle.line.specs.Runs.Use.{puts, takes};
ghost use Rattle.line.specs.Lines.{queue_of, holds, SameLender};

use super::Line;
use fabric::refusal::Refusal;

impl<'a, T: Copy> Line<'a, T> {
    // Fills the next place in turn.
    pub fn put(&mut self, x: T) -> Result<(), Refusal>
        ensures answer { shown result ≡ put_verdict (queue_of self.old) }
        ensures queue { queue_of self.new ≡ used (queue_of self.old) (puts x) }
        ensures contents { elim result [ Ok _ ↦ holds self.new ≡ holds self.old ++ x ∷ [] | Err _ ↦ holds self.new ≡ holds self.old ] }
        ensures runs { Continues (queue_of self.old) (puts x) (queue_of self.new) }
        ensures lender { SameLender self.old self.new }
    {
        if self.held == self.memory.len() {
            return Err(Refusal::Full);
        }
        let held = self.held;
        let next = self.place(held);
        self.memory[next] = x;
        self.held = held + 1;
        Ok(())
    }

    // Takes out the oldest value, and writes nothing.
    pub fn take(&mut self) -> Option<T>
        ensures answer { result ≡ oldest (queue_of self.old) }
        ensures queue { queue_of self.new ≡ used (queue_of self.old) takes }
        ensures contents { elim result [ Some x ↦ holds self.old ≡ x ∷ holds self.new | None ↦ (holds self.old ≡ []) × (holds self.new ≡ []) ] }
        ensures runs { Continues (queue_of self.old) takes (queue_of self.new) }
        ensures lender { SameLender self.old self.new }
    {
        if self.held == 0 {
            return None;
        }
        let oldest = self.memory[self.first];
        self.first = self.place(1);
        self.held -= 1;
        Some(oldest)
    }
}

// How a line begins, and how its places stand.
ghost use Rattle.std.specs.Prelude.{◌≡◌, ◌<◌, ◌≤◌, List, length};
ghost use Rattle.line.specs.Queues.{InTurn, empty, free_places, place};
ghost use Rattle.line.specs.Runs.{Use, FirstOut};
ghost use Rattle.line.specs.Lines.{queue_of, holds};

use super::Line;

impl<'a, T: Copy> Line<'a, T> {
    // An empty line; whatever run of uses follows, what comes out is in the order of what went in.
    #[tactic(auto, using(crate::proofs::Orders::first_out))]
    pub fn new(memory: &'a mut [T]) -> Line<'a, T>
        ensures queue { queue_of result ≡ empty memory.old }
        ensures runs { (run : List (Use T)) → FirstOut memory.old run }
        ensures lender { result.memory.ghost_name ≡ memory.entry.ghost_name }
    {
        Line {
            memory,
            first: 0,
            held: 0,
        }
    }

    // How many values are held.
    pub fn len(&self) -> usize
        ensures held { result ≡ (queue_of self.now).held }
        ensures count { result ≡ length (holds self.now) }
        ensures places { InTurn (queue_of self.now) }
    {
        self.held
    }

    // How many places are free.
    pub fn free(&self) -> usize
        ensures { result ≡ free_places (queue_of self.now) }
    {
        self.memory.len() - self.held
    }

    // The place that lies i places after the first, reckoned so that no sum can wrap.
    pub(crate) fn place(&self, i: usize) -> usize
        requires { (0 < length self.now.memory.now) × (i ≤ length self.now.memory.now) }
        ensures { result ≡ place (queue_of self.now) i }
    {
        let to_end = self.memory.len() - self.first;
        if i < to_end {
            self.first + i
        } else {
            i - to_end
        }
    }
}

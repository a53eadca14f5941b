// A way to draw one operation, whole.
ghost use Rattle.complete.specs.Complete.{Way, DrawnBy};

use memory::Memory;

// The memory that is left, and whether all pixels were drawn. A flag and no Result: what is left is asked for either way.
pub struct Drawn<M> {
    pub memory: M,
    pub complete: bool,
}

pub trait CompleteOperation {
    // the operation, its palette, its parts, and over which memories it is accepted
    ghost way: { Self → Way };

    // Draws the operation by its parts, if it is accepted.
    fn draw<M: Memory>(&self, memory: M) -> Drawn<M>
        ensures { DrawnBy (way self.now) (M.bytes memory) (M.bytes result.memory) result.complete };
}

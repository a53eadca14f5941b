// The laws of complete operations, each as a call that draws.
ghost use Rattle.std.specs.Prelude.{◌≡◌, ◌&&◌};
ghost use Rattle.complete.specs.Complete.{OnlyBoth};
ghost use Rattle.complete.specs.Laws.{left_by_both, both_complete, DrawnByBoth, OrderHidden, Undone, OrderDoesNotShow, ExclusiveOrUndoesItself, RectangleOnly};

use crate::operation::{CompleteOperation, Drawn};
use memory::Memory;

// Draws one operation, and then another over what it left.
fn both<V: CompleteOperation, W: CompleteOperation, M: Memory>(
    first: &V,
    second: &W,
    memory: M,
) -> Drawn<M>
    ensures { DrawnByBoth (V.way first.now) (W.way second.now) (M.bytes memory) (M.bytes result.memory) result.complete }
{
    let Drawn {
        memory,
        complete: before,
    } = first.draw(memory);
    let Drawn {
        memory,
        complete: after,
    } = second.draw(memory);
    Drawn {
        memory,
        complete: before && after,
    }
}

// What two orders left of two memories, and whether all drawings were complete: a flag, since both are handed back either way.
pub struct Orders<M, N> {
    pub one: M,
    pub other: N,
    pub complete: bool,
}

// Draws two operations, each in two ways: a and then b over one memory, and b and then a over another. Where neither
// touches what the other draws or reads, the memories end alike.
pub fn in_either_order<
    V: CompleteOperation,
    W: CompleteOperation,
    X: CompleteOperation,
    Y: CompleteOperation,
    M: Memory,
    N: Memory,
>(a: &V, b: &W, b_again: &X, a_again: &Y, one: M, other: N) -> Orders<M, N>
    ensures one { M.bytes result.one ≡ left_by_both (V.way a.now) (W.way b.now) (M.bytes one) }
    ensures other { N.bytes result.other ≡ left_by_both (X.way b_again.now) (Y.way a_again.now) (N.bytes other) }
    ensures ends { result.complete ≡ (both_complete (V.way a.now) (W.way b.now) (M.bytes one) && both_complete (X.way b_again.now) (Y.way a_again.now) (N.bytes other)) }
    ensures order { OrderHidden (V.way a.now) (W.way b.now) (X.way b_again.now) (Y.way a_again.now) (M.bytes one) (N.bytes other) result.complete (M.bytes result.one) (N.bytes result.other) }
    ensures only { (OnlyBoth (V.way a.now).operation (W.way b.now).operation (M.bytes one) (M.bytes result.one)) × (OnlyBoth (X.way b_again.now).operation (Y.way a_again.now).operation (N.bytes other) (N.bytes result.other)) }
    ensures law { OrderDoesNotShow }
    ensures rectangle { RectangleOnly }
{
    let Drawn {
        memory: one,
        complete: before,
    } = both(a, b, one);
    let Drawn {
        memory: other,
        complete: after,
    } = both(b_again, a_again, other);
    Orders {
        one,
        other,
        complete: before && after,
    }
}

// Draws an operation in one way, and again in another. An exclusive or leaves memory as it was.
pub fn twice<V: CompleteOperation, W: CompleteOperation, M: Memory>(
    operation: &V,
    again: &W,
    memory: M,
) -> Drawn<M>
    ensures drawn { DrawnByBoth (V.way operation.now) (W.way again.now) (M.bytes memory) (M.bytes result.memory) result.complete }
    ensures undone { Undone (V.way operation.now) (W.way again.now) (M.bytes memory) result.complete (M.bytes result.memory) }
    ensures law { ExclusiveOrUndoesItself }
{
    both(operation, again, memory)
}

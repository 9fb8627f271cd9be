// A talk whose numbers let nothing overflow. It is built where the ranges were tested, from a command that was not sent yet, and
// anew by each step that goes on from another. `taking` has a like one: a type's methods stand in the type's own crate.
ghost use Rattle.slot.specs.Safe.{Numbers, Within, Nibble};

use slot::Talk;

#[derive(Clone, Copy)]
pub(crate) struct SafeTalk {
    pub(crate) talk: Talk,
    pub(crate) ghost numbers: { Numbers talk },
    pub(crate) ghost cut: { Within talk.cut },
    pub(crate) ghost nibble: { ∥ Nibble talk.turn.last ∥₁ },
}

// A talk whose numbers let nothing overflow. It is built where the ranges are tested, and anew where r is
// flipped. `turn` has a like one: a type's methods stand in the type's own crate.
ghost use Rattle.std.specs.Prelude.{◌≡◌, true, false, MatchOption};
ghost use Rattle.slot.specs.Fit.{in_range};
ghost use Rattle.slot.specs.Safe.{Numbers, Within};

use slot::Talk;

#[derive(Clone, Copy)]
pub(crate) struct SafeTalk {
    pub(crate) talk: Talk,
    pub(crate) ghost numbers: { Numbers talk },
    pub(crate) ghost cut: { Within talk.cut },
}

impl SafeTalk {
    // The talk, if each of its numbers lies in its range.
    pub(crate) fn new(talk: Talk) -> Option<SafeTalk>
        ensures { MatchOption result (in_range talk ≡ false) (λ safe. (in_range talk ≡ true) × (safe.talk ≡ talk)) }
    {
        if slot::is_in_range(talk) {
            Some(SafeTalk { talk })
        } else {
            None
        }
    }
}

// An expression in one pass. `* / MOD` bind before the rest, so one term is in hand, and before it one
// of the other operators may wait, with its left side, until the term is whole.
ghost use Rattle.std.specs.Prelude.{◌≡◌};
ghost use Rattle.grammar.specs.Working.{high};
ghost use Rattle.reader.specs.Pass.{settled, pushed};

use grammar::Op;
use rules::Worked;

// The operator that waits with its left side, where one does, and the term in hand.
#[derive(Clone, Copy)]
pub(crate) struct State {
    pub(crate) waiting: Option<(Op, Worked)>,
    pub(crate) term: Worked,
}

fn is_high(op: Op) -> bool
    ensures { result ≡ high op }
{
    matches!(op, Op::Mul | Op::Div | Op::Mod)
}

// What waits, worked out with its right side.
pub(crate) fn settled(waiting: Option<(Op, Worked)>, right: Worked) -> Worked
    ensures { result ≡ settled waiting right }
{
    match waiting {
        None => right,
        Some((op, left)) => arithmetic::work(op, left, right),
    }
}

impl State {
    // Takes in an operator and the value on its right.
    pub(crate) fn push(&mut self, op: Op, right: Worked)
        ensures { self.new ≡ pushed self.old op right }
    {
        let term = self.term;
        if is_high(op) {
            self.term = arithmetic::work(op, term, right);
            return;
        }
        self.waiting = Some((op, settled(self.waiting, term)));
        self.term = right;
    }
}

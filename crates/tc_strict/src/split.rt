// The splitter: walks a capture packet by packet, and judges each alone.
ghost use Rattle.std.specs.Prelude.{◌≡◌, ◌-◌, ◌≤◌};
ghost use Rattle.tc_strict.specs.Split.{step_in, step_of, step_answer};

use space_packet::{CCSDS_HEADER_LEN, PusError};
use tc_header::TcForm;
use tc_read::PusTcRecord;

// A place in a capture.
#[derive(Clone, Copy, PartialEq, Eq)]
pub struct Cursor {
    pub at: usize,
}

#[derive(Clone, Copy, PartialEq, Eq)]
pub enum Step {
    // A packet of `total` octets from `at` on, its verdict, and where to go on.
    Packet {
        at: usize,
        total: usize,
        verdict: Result<PusTcRecord, PusError>,
        next: Cursor,
    },
    // Octets that are no whole packet, up to the capture's end.
    Tail {
        at: usize,
        len: usize,
        next: Cursor,
    },
    // The capture has ended.
    End,
}

// What remains from `at` on of a capture of `n` octets, which ends there.
fn tail(at: usize, n: usize) -> Step
    requires { at ≤ n }
    ensures { result ≡ Step.Tail at (n - at) (record { at = n }) }
{
    Step::Tail {
        at,
        len: n - at,
        next: Cursor { at: n },
    }
}

impl Cursor {
    // The beginning of a capture.
    pub fn new() -> Cursor
        ensures { result ≡ record { at = 0 } }
    {
        Cursor { at: 0 }
    }

    // The piece of the capture that begins here.
    pub fn step(self, capture: &[u8]) -> Step
        ensures { step_answer result ≡ step_of capture.now self.at }
    {
        self.step_in(TcForm::PUS_C, capture)
    }

    // Its packets are of a form; where that is refused, each of them is.
    #[tactic(auto, unfolding(crate::specs::Split::piece_by, crate::specs::Split::step_by))]
    pub fn step_in(self, form: TcForm, capture: &[u8]) -> Step
        ensures { step_answer result ≡ step_in form capture.now self.at }
    {
        let at = self.at;
        let n = capture.len();
        if n <= at {
            return Step::End;
        }
        let rest = &capture[at..];
        if rest.len() < CCSDS_HEADER_LEN {
            return tail(at, n);
        }
        let total = space_packet::word_at(rest, 4) as usize + 7;
        if rest.len() < total {
            return tail(at, n);
        }
        Step::Packet {
            at,
            total,
            verdict: crate::judge_in(form, &rest[..total]),
            next: Cursor { at: at + total },
        }
    }
}

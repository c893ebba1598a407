// Answers as a host gets them.
ghost use Rattle.std.specs.Prelude.{◌≡◌};
ghost use Rattle.calls.specs.Answers.{refusal_of};
ghost use Rattle.calls.specs.Nodes.{answer_of};
ghost use Rattle.calls.specs.Says.{told_as};
ghost use Rattle.calls.specs.Settings.{change_answer};
ghost use Rattle.calls.specs.Write.{written_answer};

use crate::Answer;
use drawing::PenAnswer;
use explanation::walk::WalkAnswer;
use lists::nodes::Counted;
use settings::Change;
use writing::Written;

// "the last three are 0 for 1 to 9 and 12"; 0 means done.
pub fn refusal(number: u64, place: u64) -> Answer
    ensures { result ≡ refusal_of number place }
{
    Answer {
        number,
        place,
        bytes: 0,
        units: 0,
        depth: 0,
    }
}

// What the walk over a plan told.
impl From<WalkAnswer> for Answer {
    ghost from_gives = { λ t a. a ≡ told_as t };

    fn from(t: WalkAnswer) -> Answer {
        Answer {
            number: t.number,
            place: t.place as u64,
            bytes: t.bytes as u64,
            units: t.units as u64,
            depth: t.depth as u64,
        }
    }
}

// What was drawn.
impl From<PenAnswer> for Answer {
    ghost from_gives = { λ d a. a ≡ record { number = d.number; place = d.place; bytes = d.bytes; units = d.units; depth = d.depth } };

    fn from(d: PenAnswer) -> Answer {
        Answer {
            number: d.number as u64,
            place: d.place as u64,
            bytes: d.bytes as u64,
            units: d.units as u64,
            depth: d.depth as u64,
        }
    }
}

// How a list of nodes was filled.
// Kept: the new form is no plainer: five types of five crates, and a trait for their five numbers is longer than these.
impl From<Counted> for Answer {
    ghost from_gives = { λ n a. a ≡ answer_of n };

    fn from(n: Counted) -> Answer {
        Answer {
            number: n.number,
            place: n.place,
            bytes: 0,
            units: n.units,
            depth: 0,
        }
    }
}

// What became of a change to the settings.
// Kept: the new form is no plainer: five types of five crates, see `From<Counted>`.
impl From<Change> for Answer {
    ghost from_gives = { λ c a. a ≡ change_answer c };

    fn from(c: Change) -> Answer {
        Answer {
            number: c.number,
            place: c.place,
            bytes: c.bytes,
            units: c.units,
            depth: 0,
        }
    }
}

// What became of a file that is written from rows.
// Kept: the new form is no plainer: five types of five crates, see `From<Counted>`.
impl From<Written> for Answer {
    ghost from_gives = { λ w a. a ≡ written_answer w };

    fn from(w: Written) -> Answer {
        Answer {
            number: w.number,
            place: w.place,
            bytes: w.bytes,
            units: w.units,
            depth: 0,
        }
    }
}

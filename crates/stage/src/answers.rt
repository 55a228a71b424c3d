// The answers to calls, in words.
ghost use Rattle.std.specs.Prelude.{Some};
ghost use Rattle.stage.specs.Texts.{row_text, told_text};

use crate::scripts::Lines;
use history::Ending;
use runs::{Answer, Failure};
use std::fmt;
use words::Spaced;

// Cues with blanks between. An order of no cues would leave the line empty.
#[derive(Clone, Copy)]
struct Row<'a>(&'a [u32]);

impl fmt::Display for Row<'_> {
    ghost output = { λ r. Some (row_text r.0.now) };

    fn fmt<W: fmt::Write>(&self, f: &mut fmt::Formatter<W>) -> fmt::Result {
        let Some((first, rest)) = self.0.split_first() else {
            return f.write_str("no cue is committed");
        };
        write!(f, "{first}{}", Spaced(rest))
    }
}

// What a call is told.
#[derive(Clone, Copy)]
pub struct Told<'a>(pub &'a Result<Answer, Failure>);

impl fmt::Display for Told<'_> {
    ghost output = { λ t. Some (told_text t.0.now) };

    fn fmt<W: fmt::Write>(&self, f: &mut fmt::Formatter<W>) -> fmt::Result {
        match self.0 {
            Ok(Answer::Place(place)) => write!(f, "place {place}"),
            Ok(Answer::Lines(count)) => write!(f, "{} read", Lines(*count)),
            Ok(Answer::Ticket(number)) => write!(f, "ticket {number}"),
            Ok(Answer::Receipt(place, Ending::Commit)) => {
                write!(f, "receipt, place {place}, commit")
            }
            Ok(Answer::Receipt(place, Ending::Abort)) => write!(f, "receipt, place {place}, abort"),
            Ok(Answer::Class(class)) => write!(f, "{}, place {}", class.number(), class.place()),
            Ok(Answer::Order(cues) | Answer::Views(Some(cues))) => {
                write!(f, "{}", Row(cues.as_slice()))
            }
            Ok(Answer::Cycle(cues)) => write!(f, "cycle {}", Row(cues.as_slice())),
            Ok(Answer::Why(Some(pair))) => {
                write!(f, "places {} and {}", pair.first, pair.second)
            }
            Ok(Answer::Views(None) | Answer::Why(None)) => f.write_str("none"),
            Err(Failure::Refused(refusal)) => {
                write!(f, "refused, {}: {refusal}", refusal.number())
            }
            Err(Failure::Fault(fault)) => {
                let number = fault.layer.number();
                write!(f, "fault {number} in line {}: {}", fault.line, fault.layer)
            }
            Err(Failure::NoTicket) => f.write_str("no such ticket, or it is used up"),
        }
    }
}

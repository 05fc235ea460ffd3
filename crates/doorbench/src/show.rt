use bits::BadCall;
use delivery::Fault;
use frame::ReadHeaderFault;
use std::{fmt, io};

// A bit string, printed as digits.
#[derive(Clone, Copy)]
pub struct Digits<'a>(pub &'a [u8]);

impl fmt::Display for Digits<'_> {
    fn fmt<W: fmt::Write>(&self, f: &mut fmt::Formatter<W>) -> fmt::Result {
        for bit in self.0 {
            write!(f, "{bit}")?;
        }
        Ok(())
    }
}

// Turns the heard bit at a place round, and prints what is heard then; `what` says whose places they are.
pub fn spoil(rt: &impl Print, heard: &mut [u8], place: usize, what: &str) -> io::Result<()> {
    match heard.get_mut(place) {
        Some(bit) => *bit ^= 1,
        None => return println!(rt; "{what} 0 to {}", heard.len().saturating_sub(1)),
    }
    println!(rt; "heard   {}", Digits(heard))
}

// Why a call was refused: the fault's number, its layer and its place.
#[derive(Clone, Copy)]
pub struct Refusal {
    number: u16,
    layer: u16,
    place: usize,
}

// Three of them, since number, layer and place are methods of each fault and no trait's.
impl From<BadCall> for Refusal {
    fn from(bad: BadCall) -> Refusal {
        Refusal {
            number: bad.number(),
            layer: bad.layer(),
            place: usize::from(bad.place()),
        }
    }
}

impl From<ReadHeaderFault> for Refusal {
    fn from(fault: ReadHeaderFault) -> Refusal {
        Refusal {
            number: fault.number(),
            layer: fault.layer(),
            place: usize::from(fault.place()),
        }
    }
}

impl From<Fault> for Refusal {
    fn from(fault: Fault) -> Refusal {
        Refusal {
            number: fault.number(),
            layer: fault.layer(),
            place: fault.place(),
        }
    }
}

impl fmt::Display for Refusal {
    fn fmt<W: fmt::Write>(&self, f: &mut fmt::Formatter<W>) -> fmt::Result {
        write!(
            f,
            "refused: number {}, layer {}, place {}",
            self.number, self.layer, self.place
        )
    }
}

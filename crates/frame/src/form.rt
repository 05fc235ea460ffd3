ghost use Rattle.std.specs.Prelude.{◌≡◌};
ghost use Rattle.frame.specs.Headers.{Form, Lawful, count};
ghost use Rattle.frame.specs.Answers.{Writes, Reads, fields_of};

use crate::fault::ReadHeaderFault;
use crate::header::Header;
use bits::BadCall;

// A header form. Its ghost member is the form as a value of the specs; the law says that reading and writing undo each
// other.
pub trait HeaderForm: Copy {
    ghost form: { Form };

    // The number of bits in a header, check bits included.
    fn bits_count(&self) -> usize
        ensures { result ≡ count form };

    // Writes the bits of a header.
    fn write(&self, header: &Header, out: &mut [u8]) -> Result<(), BadCall>
        ensures { Writes form (fields_of header.now) out.old out.new result };

    // Reads the bits of a header; `legal` tells of each rate whether the plan carries it.
    fn read(&self, bits: &[u8], legal: &[bool; 4]) -> Result<Header, ReadHeaderFault>
        ensures { Reads form legal.now bits.now result };

    ghost lawful: { Lawful form };
}

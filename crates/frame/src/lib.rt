// The header of a frame and the scrambler of its PSDU.
#![tactic(auto)]

pub mod fault;
pub mod form;
pub mod header;
pub mod narrowband;
mod numbers;
pub mod scrambler;

ghost use Rattle.std.specs.Prelude.{◌≡◌};
ghost use Rattle.frame.specs.Headers.{Lawful};
ghost use Rattle.frame.specs.Refusals.{form_number, form_layer, form_place, read_number, read_layer, read_place};
ghost use Rattle.frame.specs.Laws.{ReadingIsSingle, HeadersAreApart, KeystreamRecurs, ScramblingIsInvertible};
ghost use Rattle.frame.specs.Examples.{Examples};

pub use fault::{FormFault, ReadHeaderFault};
pub use form::HeaderForm;
pub use header::Header;
pub use narrowband::NarrowbandHeader;
pub use scrambler::{scramble, unscramble};

impl FormFault {
    pub fn number(&self) -> u16
        ensures { result ≡ form_number self.now }
    {
        match self {
            FormFault::Check => 12,
            FormFault::Reserved(_) => 13,
            FormFault::Rate(_) => 14,
        }
    }

    pub fn layer(&self) -> u16
        ensures { result ≡ form_layer self.now }
    {
        2
    }

    pub fn place(&self) -> u16
        ensures { result ≡ form_place self.now }
    {
        match self {
            FormFault::Check => 0,
            FormFault::Reserved(place) => u16::from(*place),
            FormFault::Rate(rate) => u16::from(*rate),
        }
    }
}

impl ReadHeaderFault {
    pub fn number(&self) -> u16
        ensures { result ≡ read_number self.now }
    {
        match self {
            ReadHeaderFault::Call(e) => e.number(),
            ReadHeaderFault::Form(e) => e.number(),
        }
    }

    pub fn layer(&self) -> u16
        ensures { result ≡ read_layer self.now }
    {
        match self {
            ReadHeaderFault::Call(e) => e.layer(),
            ReadHeaderFault::Form(e) => e.layer(),
        }
    }

    pub fn place(&self) -> u16
        ensures { result ≡ read_place self.now }
    {
        match self {
            ReadHeaderFault::Call(e) => e.place(),
            ReadHeaderFault::Form(e) => e.place(),
        }
    }
}

// In every header form reading and writing undo each other, bits have one reading, and different fields have different
// headers.
pub fn header_laws<F: HeaderForm>(_form: &F)
    ensures lawful { Lawful F.HeaderForm.form }
    ensures single { ReadingIsSingle F.HeaderForm.form }
    ensures apart { HeadersAreApart F.HeaderForm.form }
{}

// The keystream is the sequence of its recurrence, and scrambling is invertible.
pub fn scrambler_laws()
    ensures recurs { KeystreamRecurs }
    ensures invertible { ScramblingIsInvertible }
{}

// The worked examples hold.
pub fn worked_examples()
    ensures { Examples }
{}

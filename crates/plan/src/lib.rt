// Plans: which modes a radio uses for what.
#![tactic(auto)]

pub mod band;
pub mod band_mode;
pub mod bands;
mod preamble;
pub mod radio;
#[cfg(test)]
mod tests;

ghost use Rattle.std.specs.Prelude.{◌≡◌};
ghost use Rattle.plan.specs.Table.{all_bands, BandTable};

pub use band::Band;
pub use band_mode::BandMode;
pub use radio::RadioPlan;

// The bands in the order of their numbers, with what their plans say, and that each is lawful.
#[tactic(auto, using(crate::proofs::Table::table))]
pub fn all_bands() -> [Band; 7]
    ensures bands { result ≡ all_bands }
    ensures table { BandTable }
{
    [
        Band::Mhz402,
        Band::Mhz420,
        Band::Mhz863,
        Band::Mhz902,
        Band::Mhz950,
        Band::Mhz2360,
        Band::Mhz2400,
    ]
}

//! What a gap draws on the receiver of the samples where each tick's state is chosen too late.
ghost use Rattle.std.specs.Prelude.{◌≡◌};
ghost use Rattle.samples.specs.Late.{late_energy};

/// The energy of a gap on powers 1 and 0 and wake energies 0 and 5, where the choice of a state lags `late` ticks behind; 0
/// is the right rule. The device stays awake for five ticks and for those, and the wake-up costs 5 if it sleeps at the end.
pub fn receiver_gap(ticks: u32, late: u32) -> u64
    ensures { result ≡ late_energy late ticks }
{
    let awake = u64::from(ticks).min(5 + u64::from(late));
    if u64::from(ticks) > awake {
        awake + 5
    } else {
        awake
    }
}

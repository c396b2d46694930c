//! The lines of a plan.
ghost use Rattle.std.specs.Prelude.{◌≡◌, IfOk, string_bytes};
ghost use Rattle.plan.specs.Lines.{state_line, gap_line, total_line, first_ticks};

use states::{FitRows, Totals};
use std::alloc::{AllocError, Global};

/// When a state is first held.
pub fn state_line(heap: Global, rows: &FitRows, state: u8) -> Result<String, AllocError>
    ensures { IfOk result (λ s. string_bytes s ≡ state_line rows.now.rows state) }
{
    match rows.first_tick(state) {
        Some(first) => format!(in heap; "state {state} from tick {first}"),
        None => format!(in heap; "state {state} never"),
    }
}

/// What a clean gap draws, its floor, and the state that its last tick holds.
#[tactic(auto, using(states::proofs::Least::rule_is))]
pub fn gap_line(heap: Global, rows: &FitRows, length: u32) -> Result<String, AllocError>
    ensures { IfOk result (λ s. string_bytes s ≡ gap_line rows.now.rows length) }
{
    let energy = rows.energy(length);
    let floor = rows.floor(length);
    let (state, _) = rows.envelope(length);
    format!(in heap; "gap {length} energy {energy} floor {floor} state {state}")
}

/// The first ticks of the states that have one, from the shallowest on: gap lengths that show each state.
pub fn first_ticks(heap: Global, rows: &FitRows) -> Result<Vec<u32>, AllocError>
    ensures { IfOk result (λ v. v.items ≡ first_ticks rows.now.rows) }
{
    let states = rows.rows().len() as u8;
    (0..states)
        .filter_map(|state| rows.first_tick(state))
        .collect(heap)
}

/// What all the gaps draw, and the sum of their floors.
pub fn total_line(heap: Global, totals: Totals) -> Result<String, AllocError>
    ensures { IfOk result (λ s. string_bytes s ≡ total_line totals.energy totals.floor) }
{
    let energy = totals.energy;
    let floor = totals.floor;
    format!(in heap; "total energy {energy} floor {floor}")
}

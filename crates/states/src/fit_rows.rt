//! The rows of a fit table, and what follows from them: envelope, floor, energy, first ticks.
ghost use Rattle.std.specs.Prelude.{◌≡◌, ℕ, ◌+◌, ◌-◌, ◌*◌, ◌<◌, ◌≤◌, length, IfOk, MatchResult};
ghost use Rattle.states.specs.Table.{rows_of};
ghost use Rattle.states.specs.Envelope.{envelope_of, Envelope};
ghost use Rattle.states.specs.Fit.{Fit, FitInWords, unfitness, told};
ghost use Rattle.states.specs.Energy.{floor_of, energy_of, envelope_rule, total};
ghost use Rattle.states.specs.Ticks.{first_tick, FirstTick};
ghost use Rattle.states.specs.Laws.{NeverShallower, WithinTwice, LeastWithinTwice, DescentsAboveFloor, BestSchedule, BestPlan};
ghost use Rattle.states.specs.Overtake.{DeepestFrom, Leads, NotDeeper, HeldBetween};

use crate::gathered::Gathered;
use crate::row::Row;
use crate::state_table::StateTable;
use crate::unfit::Unfit;

/// The deepest state of the largest fit table.
const MAX_DEEPEST: u8 = 15;

/// The rows of a fit table, gathered once, so that nothing asked of them can be refused; and a tick from which on the
/// deepest state costs least, so that the ticks of a long gap need no search.
#[derive(Clone, Copy)]
pub struct FitRows {
    rows: Gathered,
    deepest_from: u32,
    ghost fit: { Fit rows },
    ghost deepest: { DeepestFrom rows deepest_from },
}

/// What a list of clean gaps draws, and the least that could have been drawn.
#[derive(Clone, Copy, Debug, Default, PartialEq, Eq)]
pub struct Totals {
    pub energy: u128,
    pub floor: u128,
}

impl FitRows {
    /// Gathers the rows of a table, or says why it is not fit.
    pub fn gather<T: StateTable>(table: &T) -> Result<FitRows, Unfit>
        ensures refusal { told result ≡ unfitness (rows_of (T.StateTable.table table.now)) }
        ensures value { IfOk result (λ f. f.rows ≡ rows_of (T.StateTable.table table.now)) }
        ensures words { MatchResult result (λ _. FitInWords (rows_of (T.StateTable.table table.now))) (λ _. FitInWords (rows_of (T.StateTable.table table.now)) → ⊥) }
    {
        if table.deepest() > MAX_DEEPEST {
            return Err(Unfit::StateCount);
        }
        let rows = Gathered::from_table(table);
        rows.fitness()?;
        let deepest_from = leads_from(rows.rows(), table.deepest());
        Ok(FitRows { rows, deepest_from })
    }

    /// The rows, from state 0 to the deepest.
    pub fn rows(&self) -> &[Row]
        ensures value { result.now ≡ self.now.rows }
        ensures some { 2 ≤ length result.now }
        ensures few { length result.now ≤ 16 }
    {
        self.rows.rows()
    }

    /// The state of least cost at `n`, the shallowest where several are equal, and its cost.
    pub fn envelope(&self, n: u32) -> (u8, u64)
        ensures value { result ≡ envelope_of self.now.rows n }
        ensures least { Envelope self.now.rows n result }
        ensures descends { (m : ℕ) → 0 < m → m ≤ n → envelope_rule self.now.rows m ≤ result.0 }
        ensures shape { NeverShallower self.now.rows }
    {
        let rows = self.rows();
        if n >= self.deepest_from {
            let deepest = rows.len() - 1;
            return (deepest as u8, rows[deepest].cost_of(n));
        }
        let mut state = 0;
        let mut least = rows[0].cost_of(n);
        // By `min_by_key` the least cost would be worked out twice: it hands out the row and not the key.
        for (i, row) in rows.iter().enumerate() {
            let cost = row.cost_of(n);
            if cost < least {
                state = i;
                least = cost;
            }
        }
        (state as u8, least)
    }

    /// The floor of a gap of `length` ticks: the least cost, 0 for no ticks. It is what the best clairvoyant schedule
    /// of the gap costs, and each rule that always holds a state of least cost draws between it and twice as much.
    pub fn floor(&self, length: u32) -> u64
        ensures value { result ≡ floor_of self.now.rows length }
        ensures best { BestSchedule self.now.rows length result }
        ensures twice { LeastWithinTwice self.now.rows length }
        ensures above { DescentsAboveFloor self.now.rows length }
        ensures low { result ≤ 1000000 * length }
    {
        if length == 0 {
            return 0;
        }
        let (_, least) = self.envelope(length);
        least
    }

    /// The first tick at which a state is the envelope state, `None` where there is none.
    pub fn first_tick(&self, state: u8) -> Option<u32>
        ensures value { result ≡ first_tick self.now.rows state }
        ensures right { FirstTick self.now.rows state result }
    {
        if usize::from(state) >= self.rows().len() {
            return None;
        }
        let first = leads_from(self.rows(), state);
        let (held, _) = self.envelope(first);
        if held == state { Some(first) } else { None }
    }

    /// The energy of a clean gap of `length` ticks under the lower envelope, the wake-up included.
    pub fn energy(&self, length: u32) -> u64
        ensures value { result ≡ energy_of self.now.rows length }
        ensures twice { WithinTwice (floor_of self.now.rows length) result }
    {
        if length == 0 {
            return 0;
        }
        let rows = self.rows();
        let (left, _) = self.envelope(length);
        let mut energy = u64::from(rows[usize::from(left)].wake);
        let mut until = length;
        for (state, row) in rows.iter().enumerate().rev() {
            let ticks = self.ticks_held(state as u8, until);
            energy += u64::from(row.power) * u64::from(ticks);
            until -= ticks;
        }
        energy
    }

    /// How many of the first `until` ticks of a gap, the last of them, are held in a state that none of them is deeper than.
    fn ticks_held(&self, state: u8, until: u32) -> u32
        requires { NotDeeper self.now.rows (state + 1) until }
        ensures within { result ≤ until }
        ensures before { NotDeeper self.now.rows state (until - result) }
        ensures held { HeldBetween self.now.rows state (until - result) until }
    {
        match self.first_tick(state) {
            Some(first) if first <= until => until - first + 1,
            _ => 0,
        }
    }

    /// The energy and the floor of a list of clean gaps, each summed up.
    pub fn totals(&self, gaps: &[u32]) -> Totals
        ensures energy { result.energy ≡ total (energy_of self.now.rows) gaps.now }
        ensures floor { result.floor ≡ total (floor_of self.now.rows) gaps.now }
        ensures twice { WithinTwice result.floor result.energy }
        ensures best { BestPlan self.now.rows gaps.now result.floor }
    {
        let mut totals = Totals::default();
        for gap in gaps {
            totals.energy += u128::from(self.energy(*gap));
            totals.floor += u128::from(self.floor(*gap));
        }
        totals
    }
}

/// The tick from which on a state costs less than each shallower one.
fn leads_from(rows: &[Row], state: u8) -> u32
    requires fit { Fit rows.now }
    requires inside { state < length rows.now }
    ensures leads { Leads rows.now state state result }
    ensures some { 0 < result }
{
    let deeper = usize::from(state);
    let row = &rows[deeper];
    let mut tick = 1;
    for above in &rows[..deeper] {
        tick = tick.max(row.overtakes(above));
    }
    tick
}

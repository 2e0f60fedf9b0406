// The climb to a response window over a load: from a bound, by its demand, and every sixth round by leaps.

ghost use Rattle.std.specs.Prelude.{◌≡◌, ◌≤◌};
ghost use Rattle.taskset.specs.Refusals.{max_period, InRanges};
ghost use Rattle.response.specs.Equation.{releases, interference, window_of};
ghost use Rattle.response.specs.Load.{Bounds, part_of, bound_of};
ghost use Rattle.response.specs.Views.{demand_in};

use crate::Load;
use taskset::{MAX_PERIOD, Task};

// 2³²: a load of this many parts is the whole processor.
const SCALE: u64 = 1 << 32;

// What a task adds to a bound, in parts of SCALE: once, and for each microsecond of the window.
#[derive(Clone, Copy)]
pub struct Part {
    pub fixed: u64,
    pub rate: u64,
}

// ⌈(w + J) / T⌉. Both numbers have at most 32 bits, and a division of such takes less time.
fn releases(t: &Task, w: u64) -> u64
    requires in_ranges { InRanges t.now }
    requires w_le_max_period { w ≤ max_period }
    ensures { result ≡ releases t.now w }
{
    u64::from((w + t.jitter + (t.period - 1)) as u32 / t.period as u32)
}

// What a task above brings to a window w: ⌈(w + J) / T⌉ × C.
#[tactic(auto, unfolding(crate::specs::Equation::interference))]
fn interference(t: &Task, w: u64) -> u64
    requires in_ranges { InRanges t.now }
    requires w_le_max_period { w ≤ max_period }
    ensures { result ≡ interference t.now w }
{
    releases(t, w) * t.execution
}

// What a task adds to a bound on every window from w on: its rate, and that over its jitter, where what it brings at w does
// not last until `reach`; else what it brings at w.
#[tactic(auto, unfolding(crate::specs::Load::fixed_part, crate::specs::Load::rate_part))]
fn part_at(t: &Task, w: u64, reach: u64) -> Part
    requires in_ranges { InRanges t.now }
    requires w_le_max_period { w ≤ max_period }
    ensures { result ≡ part_of t.now w reach }
{
    let count = releases(t, w);
    if count * t.period - t.jitter < reach {
        let rate = t.execution * SCALE / t.period;
        return Part {
            fixed: rate * t.jitter,
            rate,
        };
    }
    Part {
        fixed: count * t.execution * SCALE,
        rate: 0,
    }
}

// The least v with fixed ≤ v × (SCALE − rate); where there is none, a number beyond every limit.
#[tactic(auto, using(crate::proofs::Demand::div_ceil_is), unfolding(crate::specs::Load::bound_of))]
fn bound(fixed: u64, rate: u64) -> u64
    ensures { result ≡ bound_of fixed rate }
{
    if SCALE <= rate {
        return MAX_PERIOD + 1;
    }
    fixed.div_ceil(SCALE - rate)
}

impl Load<'_> {
    // demand(w)
    #[tactic(auto, using(crate::proofs::Demand::load_steps))]
    fn demand(&self, w: u64) -> u64
        requires { w ≤ max_period }
        ensures { result ≡ demand_in self.now w }
    {
        let mut sum = self.base;
        for &j in self.kept {
            sum += interference(&self.tasks.list[usize::from(j)], w);
        }
        sum
    }

    // From bounds w and reach on every window, one that is no lower than reach.
    #[tactic(auto, using(crate::proofs::LeapLaws::leap_steps))]
    fn leap(&self, w: u64, reach: u64) -> u64
        requires w_le_max_period { w ≤ max_period }
        requires bounds_w { Bounds (demand_in self.now) w }
        requires bounds_reach { Bounds (demand_in self.now) reach }
        ensures lower_bound { reach ≤ result }
        ensures bounds { Bounds (demand_in self.now) result }
    {
        let mut fixed = self.base * SCALE;
        let mut rate = 0;
        for &j in self.kept {
            let part = part_at(&self.tasks.list[usize::from(j)], w, reach);
            fixed += part.fixed;
            rate += part.rate;
        }
        bound(fixed, rate).max(reach)
    }

    // Where the climb goes on from w, whose demand is `needed`: there, or by three leaps from there. Where the first leads no
    // further, the others would not either.
    fn next(&self, w: u64, needed: u64, leaps: bool) -> u64
        requires w_le_max_period { w ≤ max_period }
        requires bounds_w { Bounds (demand_in self.now) w }
        requires bounds_needed { Bounds (demand_in self.now) needed }
        ensures lower_bound { needed ≤ result }
        ensures bounds { Bounds (demand_in self.now) result }
    {
        if leaps {
            let near = self.leap(w, needed);
            if near == needed {
                return needed;
            }
            let far = self.leap(w, near);
            return self.leap(w, far);
        }
        needed
    }

    // The window, climbed to from the demand at 1.
    pub fn climb(&self, start: u64, room: u64) -> Option<u64>
        requires room_le_max_period { room ≤ max_period }
        requires start_value { start ≡ demand_in self.now 1 }
        ensures { result ≡ window_of (demand_in self.now) room }
    {
        self.climb_from(start, room, 0)
    }

    // The same from any bound, at least 1, and in any round of six, 0 to 5, of which the last leaps. Document 01 has this loop, which
    // yields by `break`.
    pub fn climb_from(&self, low: u64, room: u64, first: u64) -> Option<u64>
        requires room_le_max_period { room ≤ max_period }
        requires low_bound { 1 ≤ low }
        requires bounds { Bounds (demand_in self.now) low }
        requires first_in_six { first ≤ 5 }
        ensures { result ≡ window_of (demand_in self.now) room }
    {
        let mut w = low;
        let mut round = first;
        loop {
            if room < w {
                break None;
            }
            let needed = self.demand(w);
            if needed <= w {
                break Some(w);
            }
            w = self.next(w, needed, round == 5);
            round = (round + 1) % 6;
        }
    }
}

// The response-time search of document 01: demand, response window, response; and up to the period, by document 02, (b).

#![tactic(auto)]

mod blocking;
mod candidate;
mod climb;
mod load;

ghost use Rattle.std.specs.Prelude.{◌≡◌, ◌≤◌, take};
ghost use Rattle.taskset.specs.Refusals.{max_tasks, max_period};
ghost use Rattle.response.specs.Equation.{demand, SaysWindow, window_of, response_time, SaysResponse};
ghost use Rattle.response.specs.Timing.{timing_of, SaysTiming, reported};
ghost use Rattle.response.specs.Load.{Bounds, StandsFor};
ghost use Rattle.response.specs.Views.{tasks_of, above_of};

pub use blocking::{Resources, Usage, level_blocking};
pub use candidate::Candidate;
pub use climb::Part;
pub use load::Load;
use taskset::MAX_TASKS;

// What was gathered for a load: its base, how many tasks are kept beside it, and its demand at 1.
#[derive(Clone, Copy)]
pub struct Gathered {
    pub base: u64,
    pub count: usize,
    pub start: u64,
}

// The response of a task up to its period: one that meets its deadline, one that misses it, or that none lies within the period.
#[derive(Clone, Copy, Debug, PartialEq, Eq)]
pub enum Timing {
    Met(u64),
    Missed(u64),
    PastPeriod,
}

impl Candidate<'_> {
    // Gathers what a climb up to room goes over: blocking and C of the task with what is released once, and the others above.
    fn gather(&self, room: u64, kept: &mut [u8; MAX_TASKS]) -> Gathered
        requires { room ≤ max_period }
        ensures count_in_bounds { result.count ≤ max_tasks }
        ensures stands { StandsFor (tasks_of self.now) self.now.task.0 (above_of self.now) room
            result.base (take result.count kept.new) result.start }
    {
        let mut base = self.blocking + self.tasks.list[self.task.0].execution;
        let mut start = base;
        // An array of fixed size and a count, since nothing is allocated.
        let mut count = 0;
        for (j, t) in self.tasks.list.iter().enumerate() {
            if self.above[j] {
                start += t.execution;
                if room + t.jitter <= t.period {
                    base += t.execution;
                } else {
                    kept[count] = j as u8;
                    count += 1;
                }
            }
        }
        Gathered { base, count, start }
    }

    // The response window up to room, where none lies below `low`: climbed to from there, in this round of six.
    fn climb_from(&self, low: u64, room: u64, first: u64) -> Option<u64>
        requires low_le_room { low ≤ room }
        requires room_le_max_period { room ≤ max_period }
        requires first_in_six { first ≤ 5 }
        requires bounds { Bounds (demand (tasks_of self.now) self.now.task.0 (above_of self.now)) low }
        ensures { result ≡ window_of (demand (tasks_of self.now) self.now.task.0 (above_of self.now)) room }
    {
        let mut kept = [0u8; MAX_TASKS];
        let all = self.gather(room, &mut kept);
        let load = Load {
            base: all.base,
            tasks: self.tasks,
            kept: &kept[..all.count],
        };
        load.climb_from(all.start.max(low), room, first)
    }

    // The response window, searched for up to room.
    pub fn window(&self, room: u64) -> Option<u64>
        requires { room ≤ max_period }
        ensures value { result ≡ window_of (demand (tasks_of self.now) self.now.task.0 (above_of self.now)) room }
        ensures says { SaysWindow (demand (tasks_of self.now) self.now.task.0 (above_of self.now)) room result }
    {
        self.climb_from(0, room, 0)
    }

    // demand(1), in which each task is released once.
    fn start(&self) -> u64
        ensures { result ≡ demand (tasks_of self.now) self.now.task.0 (above_of self.now) 1 }
    {
        let mut sum = self.blocking + self.tasks.list[self.task.0].execution;
        for (j, t) in self.tasks.list.iter().enumerate() {
            if self.above[j] {
                sum += t.execution;
            }
        }
        sum
    }

    // How far to search from `from` on: to the first place, twice as far or further, from which a task above may be released twice,
    // or to the room.
    fn step(&self, from: u64, room: u64) -> u64
        requires from_le_room { from ≤ room }
        requires room_le_max_period { room ≤ max_period }
        ensures { (from ≤ result) × (result ≤ room) }
    {
        let aim = 2 * from;
        if room <= aim {
            return room;
        }
        let mut reach = room;
        for (j, t) in self.tasks.list.iter().enumerate() {
            if self.above[j] {
                let once = t.period - t.jitter;
                if (aim <= once) & (once < reach) {
                    reach = once;
                }
            }
        }
        reach
    }

    // The response window up to room, where none lies below `low`. It is searched for near by first, where most tasks above are
    // released once and are not divided for; what lies beyond is leapt to at once.
    pub fn window_above(&self, low: u64, room: u64) -> Option<u64>
        requires room_le_max_period { room ≤ max_period }
        requires bounds { Bounds (demand (tasks_of self.now) self.now.task.0 (above_of self.now)) low }
        ensures { result ≡ window_of (demand (tasks_of self.now) self.now.task.0 (above_of self.now)) room }
    {
        let from = low.max(self.start());
        if room < from {
            return None;
        }
        let reach = self.step(from, room);
        if let Some(window) = self.climb_from(from, reach, 0) {
            return Some(window);
        }
        if reach == room {
            return None;
        }
        self.climb_from(reach + 1, room, 5)
    }

    // The response, searched for up to a limit.
    #[tactic(auto, using(crate::specs::Agreement::no_window), unfolding(crate::specs::Equation::response_of))]
    pub fn response_time(&self, limit: u64) -> Option<u64>
        requires { limit ≤ max_period }
        ensures value { result ≡ response_time (tasks_of self.now) self.now.task.0 (above_of self.now) limit }
        ensures says { SaysResponse (tasks_of self.now) self.now.task.0 (above_of self.now) limit result }
    {
        let jitter = self.tasks.list[self.task.0].jitter;
        let room = limit.checked_sub(jitter)?;
        let window = self.window(room)?;
        Some(jitter + window)
    }

    // The response up to the period, and whether it meets the deadline.
    #[tactic(auto, unfolding(crate::specs::Timing::timing_by))]
    pub fn timing(&self) -> Timing
        ensures value { result ≡ timing_of (tasks_of self.now) self.now.task.0 (above_of self.now) }
        ensures says { SaysTiming (tasks_of self.now) self.now.task.0 (above_of self.now) result }
    {
        let own = &self.tasks.list[self.task.0];
        let Some(response) = self.response_time(own.period) else {
            return Timing::PastPeriod;
        };
        if response <= own.deadline {
            return Timing::Met(response);
        }
        Timing::Missed(response)
    }
}

impl Timing {
    // The response as document 02 reports it: 0 where none lies within the period.
    pub fn reported(self) -> u64
        ensures { result ≡ reported self }
    {
        match self {
            Timing::Met(response) | Timing::Missed(response) => response,
            Timing::PastPeriod => 0,
        }
    }
}

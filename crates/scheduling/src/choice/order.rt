//! The order of the lines of a block in which less has to be waited for.
use crate::choice::WINDOW;
use crate::choice::facts::Facts;
use std::alloc::{AllocError, Global};

/// The later one raises the height of one of those in front of it.
fn raise(facts: &mut [Facts], number: usize, later: Facts, is_waited_for: bool) {
    if let Some(earlier) = facts.get_mut(number) {
        let gap = if is_waited_for { earlier.latency } else { 1 };
        let height = earlier
            .before
            .saturating_add(gap)
            .saturating_add(later.height);
        earlier.height = earlier.height.max(height);
    }
}

/// A line raises the heights of those in front of it.
fn raise_all(facts: &mut [Facts], number: usize, later: Facts) {
    let mut behind = later.behind;
    let mut waits = later.waits;
    for earlier in (0..number).rev() {
        if behind == 0 {
            break;
        }
        if behind % 2 == 1 {
            raise(facts, earlier, later, waits % 2 == 1);
        }
        behind /= 2;
        waits /= 2;
    }
}

/// Sets the heights of all lines, from the last to the first: one has a height by itself, by the jump, and by the lines behind it.
fn set_heights(facts: &mut [Facts]) {
    for number in (0..facts.len()).rev() {
        if let Some(line) = facts.get_mut(number) {
            let gap = if line.is_jumped_on { line.latency } else { 1 };
            line.height = line.height.max(line.before.saturating_add(gap));
            let line = *line;
            raise_all(facts, number, line);
        }
    }
}

/// When a line has what it waits for.
fn start_of(done: &[u32], number: usize, line: Facts) -> u32 {
    let mut waits = line.waits;
    let mut start = 0u32;
    for earlier in (0..number).rev() {
        if waits == 0 {
            break;
        }
        if waits % 2 == 1
            && let Some(end) = done.get(earlier)
        {
            start = start.max(*end);
        }
        waits /= 2;
    }
    start
}

/// The block as far as it is done.
#[derive(Drop)]
struct Progress {
    /// when each line's result can be read
    done: Vec<u32>,

    /// the first line that isn't done, and which of those behind it are
    first: usize,
    ahead: u32,

    /// the cycle
    now: u32,

    /// when the jump has what it reads
    jump: u32,
}

impl Progress {
    fn new(alloc: Global, count: usize) -> Result<Progress, AllocError> {
        Ok(Progress {
            done: vec![in alloc; 0u32; count]?,
            first: 0,
            ahead: 0,
            now: 0,
            jump: 0,
        })
    }

    /// Whether all that has to stay in front of it is done.
    fn is_ready(&self, distance: u32, line: Facts) -> bool {
        let mut behind = line.behind;
        for earlier in (0..distance).rev() {
            if behind % 2 == 1 && (self.ahead >> (earlier % 32)) % 2 == 0 {
                return false;
            }
            behind /= 2;
        }
        true
    }

    /// Which line is done next, by how far it is behind the first one.
    fn choose(&self, facts: &[Facts]) -> u32 {
        let mut best = 0u32;
        let mut least = u32::MAX;
        let mut height = 0u32;
        for distance in 0..WINDOW {
            let number = self.first.saturating_add(distance as usize);
            if let Some(line) = facts.get(number)
                && (self.ahead >> (distance % 32)) % 2 == 0
                && self.is_ready(distance, *line)
            {
                let start = start_of(self.done.as_slice(), number, *line).max(self.now);
                if start < least || start == least && height < line.height {
                    best = distance;
                    least = start;
                    height = line.height;
                }
            }
        }
        best
    }

    /// A line is done.
    fn take(&mut self, number: usize, line: Facts) {
        let start = start_of(self.done.as_slice(), number, line);
        self.now = self.now.max(start).saturating_add(line.before);
        let end = self.now.saturating_add(line.latency);
        if let Some(done) = self.done.get_mut(number) {
            *done = end;
        }
        if line.is_jumped_on {
            self.jump = end;
        }
        self.now = self.now.saturating_add(1);
    }

    /// Goes on behind what is done.
    fn pass(&mut self, distance: u32) {
        self.ahead |= 1u32.wrapping_shl(distance);
        for _ in 0..=WINDOW {
            if self.ahead % 2 == 0 {
                break;
            }
            self.ahead /= 2;
            self.first = self.first.saturating_add(1);
        }
    }

    /// When the jump is done.
    fn end(&self) -> u32 {
        self.now.max(self.jump)
    }
}

/// The cycles in the order that there is.
fn time(alloc: Global, facts: &[Facts]) -> Result<u32, AllocError> {
    let mut progress = Progress::new(alloc, facts.len())?;
    for (number, line) in facts.iter().enumerate() {
        progress.take(number, *line);
    }
    Ok(progress.end())
}

/// The cycles where nothing waits.
fn least(facts: &[Facts]) -> u32 {
    facts.iter().fold(0u32, |sum: u32, line| {
        sum.saturating_add(line.before).saturating_add(1)
    })
}

/// The order in which less has to be waited for, if there is one: numbers of lines of the block.
pub(crate) fn order_of(
    alloc: Global,
    facts: &mut [Facts],
) -> Result<Option<Vec<usize>>, AllocError> {
    let before = time(alloc, facts)?;
    if before == least(facts) {
        return Ok(None);
    }
    set_heights(facts);
    let mut order = Vec::with_capacity(alloc, facts.len())?;
    let mut progress = Progress::new(alloc, facts.len())?;
    for _ in 0..facts.len() {
        let distance = progress.choose(facts);
        let number = progress.first.saturating_add(distance as usize);
        if let Some(line) = facts.get(number) {
            order.push(line.line)?;
            progress.take(number, *line);
        }
        progress.pass(distance);
    }
    if progress.end() < before {
        Ok(Some(order))
    } else {
        Ok(None)
    }
}

//! A line on a terminal that tells how far a long job is.
use std::io::IsTerminal;
use std::time::{Duration, Instant};

/// How many milliseconds pass before the line is written anew.
const PAUSE: u128 = 200;

/// How far a job is, shown on standard error where that is a terminal, and nowhere else: how many messages are
/// answered so far, and how many that is a second.
#[derive(Drop)]
pub struct Progress {
    /// How many messages are answered.
    messages: u64,
    /// When the first was begun, and when the line was last written; none where nothing is told.
    times: Option<(Instant, Instant)>,
    /// How many characters the line has.
    length: usize,
}

impl Progress {
    /// Of a job that begins, if it is to be shown at all.
    pub fn new(rt: &HostRuntime, is_told: bool) -> Progress {
        let times = if is_told && rt.stderr().is_terminal() {
            match Instant::now(rt) {
                Ok(now) => Some((now, now)),
                Err(_) => None,
            }
        } else {
            None
        };
        Progress {
            messages: 0,
            times,
            length: 0,
        }
    }

    /// One more message is answered.
    pub fn step(&mut self, rt: &HostRuntime) {
        let Some((begun, last)) = self.times else {
            return;
        };
        self.messages = self.messages.saturating_add(1);
        let Ok(now) = Instant::now(rt) else {
            return;
        };
        if now.saturating_duration_since(last).as_millis() < PAUSE {
            return;
        }
        self.times = Some((begun, now));
        let messages = self.messages;
        let rate = a_second(messages, now.saturating_duration_since(begun));
        let Ok(line) = format!(in rt.alloc(); "{messages} messages, {rate} a second") else {
            return;
        };
        self.clear(rt);
        let _ = rt.eprint(line.as_str());
        self.length = line.len();
    }

    /// Takes the line away.
    pub fn clear(&mut self, rt: &HostRuntime) {
        if self.length == 0 {
            return;
        }
        let _ = rt.eprint("\r");
        for _ in 0..self.length {
            let _ = rt.eprint(" ");
        }
        let _ = rt.eprint("\r");
        self.length = 0;
    }
}

/// How many messages a second these are.
fn a_second(messages: u64, time: Duration) -> u64 {
    let millis = time.as_millis().max(1);
    let rate = u128::from(messages) * 1000 / millis;
    if rate > u128::from(u64::MAX) {
        u64::MAX
    } else {
        rate as u64
    }
}

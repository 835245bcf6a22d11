//! How many runs there were, and how much was tested in them.
use std::fmt;

/// How many runs there were, and how much was tested in them. Each count stays at its greatest value.
#[derive(Clone, Copy)]
pub struct Counts {
    runs: u64,
    failed: u64,
    events: u64,
    steps: u64,
    refused: u64,
    judged: u64,
    tracks: u64,
    holdovers: u64,
}

impl Counts {
    /// Nothing yet.
    pub fn new() -> Counts {
        Counts {
            runs: 0,
            failed: 0,
            events: 0,
            steps: 0,
            refused: 0,
            judged: 0,
            tracks: 0,
            holdovers: 0,
        }
    }

    /// A run begins.
    pub fn run(&mut self) {
        self.runs = self.runs.saturating_add(1);
    }

    /// A run failed.
    pub fn fail(&mut self) {
        self.failed = self.failed.saturating_add(1);
    }

    /// An event was taken, of which nodes made so many steps.
    pub fn event(&mut self, steps: usize) {
        self.events = self.events.saturating_add(1);
        self.steps = self.steps.saturating_add(steps as u64);
    }

    /// So many events were refused because memory ran out, and taken when they came again.
    pub fn refuse(&mut self, times: u32) {
        self.refused = self.refused.saturating_add(u64::from(times));
    }

    /// A port in WR_LINK_ON was judged Ok.
    pub fn judge(&mut self) {
        self.judged = self.judged.saturating_add(1);
    }

    /// A node in TRACK was within its bound.
    pub fn track(&mut self) {
        self.tracks = self.tracks.saturating_add(1);
    }

    /// A node in HOLDOVER was within its bound.
    pub fn hold(&mut self) {
        self.holdovers = self.holdovers.saturating_add(1);
    }

    /// Whether no run failed, and there was something of each sort to test.
    pub fn passed(&self) -> bool {
        let tested = self.events > 0 && self.judged > 0 && self.tracks > 0 && self.holdovers > 0;
        self.runs > 0 && self.failed == 0 && tested
    }
}

impl fmt::Display for Counts {
    fn fmt<W: fmt::Write>(&self, f: &mut fmt::Formatter<W>) -> fmt::Result {
        let (runs, failed) = (self.runs, self.failed);
        let (events, steps, refused) = (self.events, self.steps, self.refused);
        let (judged, tracks, holdovers) = (self.judged, self.tracks, self.holdovers);
        write!(
            f,
            "{runs} runs, {failed} failed\n{events} events, {refused} of them refused for want of memory and taken again\n"
        )?;
        write!(
            f,
            "{steps} steps of nodes, alike in both worlds\n{judged} ports judged\n"
        )?;
        write!(
            f,
            "{tracks} nodes within their bound in TRACK\n{holdovers} nodes within their bound in HOLDOVER"
        )
    }
}

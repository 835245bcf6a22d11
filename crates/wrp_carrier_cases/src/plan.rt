//! The plan of a run: what is lost, and when.
use std::alloc::{AllocError, Global};
use std::fmt;

// The greatest moment, in ms.
const LAST: u32 = 5_000_000;

/// What is lost and comes back.
#[derive(Clone, Copy)]
pub enum Loss {
    /// The fibre between the grandmaster and the switch is cut, and joined again.
    Fibre,
    /// The switch goes down, and comes up again.
    Switch,
}

/// What is lost in the runs of a moment.
pub const LOSSES: [Loss; 2] = [Loss::Fibre, Loss::Switch];

/// The plan of a run.
#[derive(Clone, Copy)]
pub struct Plan {
    /// When something is lost, in ms: half a second later it comes back, and another half a second later the run ends.
    pub moment: u32,
    /// What is lost.
    pub loss: Loss,
}

impl Plan {
    // The fault lines of the scenario: when it comes, and when it ends.
    fn faults(&self, alloc: Global, back: u32) -> Result<String, AllocError> {
        let moment = self.moment;
        match self.loss {
            Loss::Fibre => { format!(in alloc; "fault,{moment},cut,f1\nfault,{back},join,f1\n") }
            Loss::Switch => { format!(in alloc; "fault,{moment},down,sw1\nfault,{back},up,sw1\n") }
        }
    }

    /// The lines of its scenario: both ways of the upper fibre take 100 us, both ways of the lower one 50 us.
    pub fn scenario(&self, alloc: Global) -> Result<String, AllocError> {
        let back = self.moment.saturating_add(500);
        let end = self.moment.saturating_add(1_000);
        let mut text = format!(in alloc;
            "length,{end}\nfibre,f1,6553600000000\nfibre,f2,3276800000000\n"
        )?;
        text.push_str(self.faults(alloc, back)?.as_str())?;
        Ok(text)
    }
}

impl fmt::Display for Plan {
    fn fmt<W: fmt::Write>(&self, f: &mut fmt::Formatter<W>) -> fmt::Result {
        let moment = self.moment;
        match self.loss {
            Loss::Fibre => write!(f, "{moment} ms, f1 cut"),
            Loss::Switch => write!(f, "{moment} ms, sw1 down"),
        }
    }
}

/// Moments that are equally far from each other, in ms.
#[derive(Clone, Copy)]
pub struct Span {
    from: u32,
    to: u32,
    step: u32,
}

// A moment as a word.
fn moment_of(word: &str) -> Option<u32> {
    match word.parse::<u32>() {
        Ok(moment) if moment <= LAST => Some(moment),
        _ => None,
    }
}

impl Span {
    /// The moments from the first to the last word, as far from each other as the third says, which is at least 1. None
    /// if a word is no number up to 5,000,000.
    pub fn of(from: &str, to: &str, step: &str) -> Option<Span> {
        let (from, to, step) = (moment_of(from)?, moment_of(to)?, moment_of(step)?);
        if step == 0 {
            return None;
        }
        Some(Span { from, to, step })
    }

    /// How many moments there are.
    pub fn count(&self) -> u32 {
        match self.to.checked_sub(self.from) {
            Some(far) => (far / self.step.max(1)).saturating_add(1),
            None => 0,
        }
    }

    /// A moment, counted from 0.
    pub fn moment(&self, number: u32) -> u32 {
        self.from.saturating_add(number.saturating_mul(self.step))
    }
}

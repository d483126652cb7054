//! A whole call script.
ghost use Rattle.std.specs.Prelude.{◌≡◌, None, All, IfOk, map, is_some};
ghost use Rattle.script.specs.Run.{brought, asks_acceptance, acceptances, run_of};

use crate::line::{Line, LineError, read_line};
use history::call::{Call, Entry};
use service::states::LEAST_AREA;
use std::alloc::{AllocError, Global};
use thiserror::Error;

/// A call of a script.
#[derive(Drop)]
pub struct Step {
    /// What is asked of the service.
    pub call: Call<Vec<u8>>,
    /// How many octets the area has that the call brings.
    pub area: usize,
}

impl Step {
    // The octets of the acceptance that it asks for.
    fn acceptance(&self) -> Option<&[u8]>
        ensures { is_some result ≡ asks_acceptance self.now.call }
    {
        match &self.call {
            Call::Accept(octets) => Some(octets.as_slice()),
            _ => None,
        }
    }
}

/// A wrong line.
#[derive(Debug, Drop, Error)]
#[error("line {line}: {error}")]
pub struct ScriptError {
    /// The number of the line, counted from 1.
    pub line: u64,
    /// What is wrong with it.
    pub error: LineError,
}

/// The calls of a script, read line by line.
#[derive(Drop)]
pub struct Script {
    heap: Global,
    // lines read so far
    lines: u64,
    // octets of the area of the next call
    area: usize,
    steps: Vec<Step>,
}

impl Script {
    /// A script of no lines.
    pub fn new(heap: Global) -> Script {
        Script {
            heap,
            lines: 0,
            area: LEAST_AREA,
            steps: Vec::new(heap),
        }
    }

    fn read(&mut self, text: &[u8]) -> Result<(), LineError> {
        match read_line(self.heap, text)? {
            Line::Blank => {}
            Line::Area(octets) => self.area = octets,
            Line::Call(call) => {
                // setting the clock writes nothing
                let area = if matches!(call, Call::SetClock(_)) {
                    0
                } else {
                    self.area
                };
                self.steps.push(Step { call, area })?;
            }
        }
        Ok(())
    }

    /// Reads the next line, without its newline.
    pub fn add_line(&mut self, text: &[u8]) -> Result<(), ScriptError> {
        self.lines = self.lines.saturating_add(1);
        let line = self.lines;
        self.read(text).map_err(|error| ScriptError { line, error })
    }

    /// The calls read so far.
    pub fn steps(&self) -> &[Step]
        ensures { result.now ≡ self.now.steps.items }
    {
        self.steps.as_slice()
    }

    /// The octets of each acceptance asked for, in their order.
    pub fn accepts(&self) -> Result<Vec<&[u8]>, AllocError> {
        self.steps
            .iter()
            .filter_map(|step| step.acceptance())
            .collect(self.heap)
    }

    // How many acceptances are asked for.
    fn count_accepts(&self) -> usize
        ensures { result ≡ acceptances self.now.steps.items }
    {
        self.steps
            .iter()
            .filter(|step| step.acceptance().is_some())
            .count()
    }

    /// The run to make: the calls of the script, then a completion for each acceptance asked
    /// for, in their order, so that no request stays accepted. No call writes past the least
    /// area, so where the script sets a larger one, that much is lent.
    pub fn entries(&self) -> Result<Vec<Entry<'_>>, AllocError>
        ensures run { IfOk result (λ entries. map brought entries.items ≡ run_of self.now.steps.items) }
        ensures not_made { IfOk result (λ entries. All (λ e. e.reply ≡ None) entries.items) }
    {
        let mut entries = Vec::new(self.heap);
        for step in self.steps() {
            entries.push(Entry {
                call: step.call.as_deref(),
                area: vec![in self.heap; 0; step.area.min(LEAST_AREA)]?,
                reply: None,
            })?;
        }
        // from 0: of 1..=n an invariant would also have to say what the range gave so far
        for k in 0..self.count_accepts() {
            entries.push(Entry {
                call: Call::Complete(k + 1),
                area: vec![in self.heap; 0; LEAST_AREA]?,
                reply: None,
            })?;
        }
        Ok(entries)
    }
}

//! A source in memory that pauses.
ghost use Rattle.std.specs.Prelude.{◌≡◌, IfOk};

use crate::LiveSource;
use link_channels::MAX_PAYLOAD;
use outside_io::{Failed, NoMemory, Source};
use std::alloc::Global;

/// A source whose octets, or payloads, aren't always there: whether they are is answered by a list, and behind its end they are. Which octets
/// it has still to give is not told; its payloads are, where the source behind tells them.
#[derive(Drop)]
pub struct PausingSource<S> {
    source: S,
    answers: Vec<bool>,
    at: usize,
}

impl<S: Drop> PausingSource<S> {
    /// Its calls of `gather` give these answers, and then yes again and again.
    pub fn with(alloc: Global, source: S, answers: &[bool]) -> Result<PausingSource<S>, NoMemory>
        ensures source { IfOk result (λ pausing. pausing.source ≡ source) }
        ensures answers { IfOk result (λ pausing. pausing.answers.items ≡ answers.now) }
        ensures first { IfOk result (λ pausing. pausing.at ≡ 0) }
    {
        Ok(PausingSource {
            source,
            answers: Vec::from_slice(alloc, answers)?,
            at: 0,
        })
    }
}

impl<S: Source> Source for PausingSource<S> {
    ghost use Rattle.std.specs.Prelude.{None};

    ghost remaining = { λ _. None };

    ghost ahead = { λ pausing. S.ahead pausing.source };

    ghost faults = { λ pausing. S.faults pausing.source };

    fn read(&mut self, buf: &mut [u8]) -> Result<usize, Failed> {
        self.source.read(buf)
    }
}

impl<S: LiveSource> LiveSource for PausingSource<S> {
    ghost use Rattle.std.specs.Prelude.{Some, drop};
    ghost use Rattle.live_source.specs.Pausing.{answers_of};

    ghost ready = { λ pausing. Some (answers_of (drop pausing.at pausing.answers.items)) };

    ghost payloads = { λ pausing. S.payloads pausing.source };

    fn is_in_datagrams(&self) -> bool {
        self.source.is_in_datagrams()
    }

    fn gather(&mut self, _count: usize) -> bool {
        if self.at < self.answers.len() {
            let answer = self.answers[self.at];
            self.at += 1;
            return answer;
        }
        true
    }

    fn read_payload(&mut self, block: &mut [u8; MAX_PAYLOAD]) -> Result<usize, Failed> {
        self.source.read_payload(block)
    }
}

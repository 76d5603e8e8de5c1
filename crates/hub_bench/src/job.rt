//! What is asked for.

#[derive(Clone, Copy)]
pub struct Job {
    pub is_timed: bool,
    /// 1 to 4.
    pub threads: u64,
    /// How many frames a call takes, 1 to 64.
    pub batch: u64,
    /// How many dispatches each client sends, a multiple of `batch`.
    pub dispatches: u64,
    /// Whether they go to the server of the client's own thread alone, not to all servers in turn.
    pub apart: bool,
}

impl Job {
    /// The job that a line asks for, or a small one.
    pub fn read(line: &str) -> Job {
        let small = Job {
            is_timed: false,
            threads: 1,
            batch: 16,
            dispatches: 64,
            apart: false,
        };
        Job::timed(line).unwrap_or(small)
    }

    /// The server to which a client sends after this one.
    pub fn next(self, server: u64) -> u64 {
        if self.apart {
            return server;
        }
        let next = server.saturating_add(1);
        if next < self.threads { next } else { 0 }
    }

    fn timed(line: &str) -> Option<Job> {
        let mut words = line.split_whitespace();
        if words.next()? != "time" {
            return None;
        }
        let threads: u64 = words.next()?.parse().ok()?;
        let batch: u64 = words.next()?.parse().ok()?;
        let dispatches: u64 = words.next()?.parse().ok()?;
        let apart = match words.next() {
            None => false,
            Some(word) if word == "apart" => true,
            Some(_) => return None,
        };
        if threads == 0 || threads > 4 || batch == 0 || batch > 64 || dispatches % batch != 0 {
            return None;
        }
        Some(Job {
            is_timed: true,
            threads,
            batch,
            dispatches,
            apart,
        })
    }
}

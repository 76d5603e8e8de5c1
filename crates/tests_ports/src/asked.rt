//! Lines over a connection.

ghost use Rattle.std.specs.Prelude.{⊤};

use crate::ends::end_of;
use crate::figures::{METRICS, figures};
use futures::test::MockTask;
use line_session::{LineEnd, LineSession};
use operator_port::{Knows, Lack, Operator, Question, Reply, health_of};
use std::alloc::Global;
use std::test::Fail;

/// Knows the figures of the tests, and counts what it is asked.
#[derive(Drop)]
pub struct Known {
    pub alloc: Global,
    pub asked: usize,
}

impl Knows for Known {
    ghost asks = { λ _ _ _. ⊤ };

    ghost asks_nothing = { λ _. tt };

    ghost asks_in_order = { λ _ _ _ _ _ _ _. tt };

    fn ask(&mut self, question: Question<'_>) -> Reply {
        self.asked = self.asked.saturating_add(1);
        match question {
            Question::Help => Reply::Help,
            Question::Health => health_of(true, true),
            Question::Routes => Reply::Routes(Vec::new(self.alloc)),
            Question::Servers => Reply::Servers(Vec::new(self.alloc)),
            Question::Server { .. } => Reply::Done,
            Question::Forget(_) => Reply::Failed(Lack::NoAddress),
            Question::DrainAll => Reply::Drained {
                drained: 1,
                left: 0,
            },
            Question::Stop(count) => Reply::Stopping { count },
            Question::Rejoin("a") => Reply::Done,
            Question::Rejoin("b") => Reply::Failed(Lack::Open),
            Question::Cut("a") => Reply::Done,
            Question::Cut("b") => Reply::Failed(Lack::Closed),
            Question::Rejoin(_) | Question::Cut(_) => Reply::Failed(Lack::UnknownServer),
            Question::Events => Reply::Events(Vec::new(self.alloc)),
            Question::Full | Question::Config => Reply::Failed(Lack::Memory),
            Question::Metrics => match figures(self.alloc) {
                Ok(figures) => Reply::Metrics(figures),
                Err(_) => Reply::Failed(Lack::Memory),
            },
            Question::Record => Reply::Failed(Lack::NotRecorded),
        }
    }
}

/// What comes in, what is written behind it, and how many questions are asked.
const TALKS: &[(&str, &str, usize)] = &[
    ("", "", 0),
    ("health\nroutes\nevents\n", "ok\nend\nend\n", 3),
    (
        "server a 127.0.0.1:1\nservers\nforget a\nserver a\n",
        "ok\nend\nerror NoAddress\nerror BadCommand\n",
        3,
    ),
    (
        "quit\nstatus\r\nhealth\r\n",
        "error BadCommand\nerror BadCommand\nok\n",
        1,
    ),
    (
        "drain all\nstatus full\nheal",
        "drained 1 left 0\nerror Memory\n",
        2,
    ),
    (
        "rejoin a\nrejoin b\r\nrejoin c\nrejoin \nrejoin a b\n",
        "ok\nerror Open\nerror UnknownServer\nerror BadCommand\nerror BadCommand\n",
        3,
    ),
    (
        "cut a\ncut b\r\ncut c\ncut \ncut a b\n",
        "ok\nerror Closed\nerror UnknownServer\nerror BadCommand\nerror BadCommand\n",
        3,
    ),
    (
        "stop\nstop 5\nstop 3601\n",
        "stopping 30 open\nstopping 5 open\nerror BadCommand\n",
        2,
    ),
    ("metrics\n", METRICS, 1),
    (
        "record\nhelp me\n",
        "error NotRecorded\nerror BadCommand\n",
        1,
    ),
];

/// What a web page can have a browser send: nothing of it is asked.
const REQUESTS: &[&str] = &[
    "POST / HTTP/1.1\r\n\r\ndrain all\r\n",
    "drain all HTTP/1.1\nhealth\n",
];

fn goes(
    rt: &HostRuntime,
    input: &str,
    output: &str,
    asked: usize,
    how: LineEnd,
) -> Result<bool, Fail> {
    let alloc = rt.alloc();
    let knows = Known { alloc, asked: 0 };
    let lines = Operator { alloc, knows };
    let task = MockTask::new(rt)?;
    let Ok(mut session) = LineSession::new(alloc, input.as_bytes(), Vec::new(alloc), lines) else {
        return Err(Fail::from("memory was refused"));
    };
    let end = end_of(&task, &mut session);
    let (_, written, lines) = session.into_parts();
    Ok(end == Some(how) && written.as_slice() == output.as_bytes() && lines.knows.asked == asked)
}

#[test]
fn talks(rt: HostRuntime) -> Result<(), Fail> {
    for (place, (input, output, asked)) in TALKS.iter().enumerate() {
        if !goes(&rt, input, output, *asked, LineEnd::Ended)? {
            return Err(Fail::from(place));
        }
    }
    Ok(())
}

#[test]
fn requests_of_browsers(rt: HostRuntime) -> Result<(), Fail> {
    for (place, input) in REQUESTS.iter().enumerate() {
        if !goes(&rt, input, "error BadCommand\n", 0, LineEnd::Quit)? {
            return Err(Fail::from(place));
        }
    }
    Ok(())
}

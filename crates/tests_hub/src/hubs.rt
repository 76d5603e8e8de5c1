//! The hubs that rows are played in. Each has one client.

use crate::play::Fault;
use std::alloc::Global;

/// A hub by its limits, and by its servers and routes.
#[derive(Clone, Copy)]
pub struct Fixture {
    limits: &'static str,
    tables: &'static [&'static str],
}

impl Fixture {
    /// Its configuration.
    pub fn config(self, alloc: Global) -> Result<String, Fault> {
        let keys = "listen = \"127.0.0.1:0\"\nadmin = \"127.0.0.1:0\"\nsessions = 1\n";
        let mut text = String::from_str(alloc, keys)?;
        text.push_str(self.limits)?;
        for table in self.tables {
            text.push_str(*table)?;
        }
        Ok(text)
    }
}

const SERVER_A: &str = "[[server]]
name = \"a\"
address = \"127.0.0.1:1\"
init = \"plain\"
";

const SERVER_B: &str = "[[server]]
name = \"b\"
address = \"127.0.0.1:2\"
init = \"plain\"
";

const ROUTE_TO_A: &str = "[[route]]
dst = \"/s/a\"
servers = [\"a\"]
";

const ROUTE_TO_B: &str = "[[route]]
dst = \"/s/b\"
servers = [\"b\"]
";

const ROUTE_TO_BOTH: &str = "[[route]]
dst = \"/s/a\"
servers = [\"a\", \"b\"]
";

const ROOMY: &str = "window = 8\nout = 16\nhistory = 512\n";

pub const ONE_SERVER: Fixture = Fixture {
    limits: ROOMY,
    tables: &[SERVER_A, ROUTE_TO_A],
};

/// A nacked dispatch may be sent once again.
pub const TWO_SERVERS: Fixture = Fixture {
    limits: "window = 8\nout = 16\nhistory = 512\nretries = 1\n",
    tables: &[SERVER_A, SERVER_B, ROUTE_TO_BOTH],
};

/// Two destinations, each with a server of its own.
pub const TWO_ROUTES: Fixture = Fixture {
    limits: ROOMY,
    tables: &[SERVER_A, SERVER_B, ROUTE_TO_A, ROUTE_TO_B],
};

/// With little room for records.
pub const SHORT: Fixture = Fixture {
    limits: "window = 2\nout = 6\nhistory = 16\n",
    tables: &[SERVER_A, ROUTE_TO_A],
};

/// With more dispatches than half of a history has places for.
pub const NARROW: Fixture = Fixture {
    limits: "window = 4\nout = 8\nhistory = 16\n",
    tables: &[SERVER_A, ROUTE_TO_A],
};

/// A client's session holds more than a server's, and has fewer places.
pub const SIDES: Fixture = Fixture {
    limits: "window = 3\nout = 7\nhistory = 16\nserver_window = 2\nserver_out = 6\nserver_history = 32\n",
    tables: &[SERVER_A, ROUTE_TO_A],
};

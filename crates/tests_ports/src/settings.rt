//! The reply to `config`.

use operator_port::config_page;
use route_table::Config;
use std::alloc::Global;
use std::test::Fail;

const LEAST: &str = "listen = '127.0.0.1:4100'
admin = \"[::1]:4101\"
";

const DEFAULTS: &str = "listen = \"127.0.0.1:4100\"
admin = \"[::1]:4101\"
audit = \"close\"
# reconnect_ms = none
clients = 64
sessions = 1024
# client_idle_ms = none
# server_silent_ms = none
# eject_after = none
eject_ms = 10000
window = 1024
out = 2048
history = 65536
server_window = 1024
server_out = 2048
server_history = 65536
out_bytes = 67108864
max_frame = 1048576
# operator = none
# metrics_http = none
retries = 0
boot = 1
tick_ms = 1000
frame_ms = 30000
admin_idle_ms = 60000
threads = 1
record = 0
# end
";

const MOST: &str = "record = 10_000
threads = 16
admin_idle_ms = 3_600_000
frame_ms = 100
tick_ms = 10
boot = 1_000_000_000
retries = 3
metrics_http = '[2001:db8::1]:0'
operator = '10.0.0.7:65535'
max_frame = 32
out_bytes = 4_294_967_296
server_history = 17
server_out = 21
server_window = 16
history = 18
out = 23
window = 19
client_idle_ms = 86_400_000
server_silent_ms = 100
eject_ms = 3_600_000
eject_after = 1_000
sessions = 65_536
clients = 1_023
reconnect_ms = 11
audit = 'rolling'
admin = '127.0.0.1:1'
listen = '0.0.0.0:2'
route = [
    { dst = '/s/a', servers = ['b-2', 'a'] },
    { dst = \"\\\"\\\\\\n\\u007f\\u001bä ~\", servers = ['a'] },
]
server = [
    { name = 'a', address = '127.0.0.1:3' },
    { name = 'b-2', address = '[::]:4', init = 'plain' },
    { name = 'c', address = 'none', init = 'plain' },
]
";

const ALL: &str = "listen = \"0.0.0.0:2\"
admin = \"127.0.0.1:1\"
audit = \"rolling\"
reconnect_ms = 11
clients = 1023
sessions = 65536
client_idle_ms = 86400000
server_silent_ms = 100
eject_after = 1000
eject_ms = 3600000
window = 19
out = 23
history = 18
server_window = 16
server_out = 21
server_history = 17
out_bytes = 4294967296
max_frame = 32
operator = \"10.0.0.7:65535\"
metrics_http = \"[2001:db8::1]:0\"
retries = 3
boot = 1000000000
tick_ms = 10
frame_ms = 100
admin_idle_ms = 3600000
threads = 16
record = 10000
[[server]]
name = \"a\"
address = \"127.0.0.1:3\"
init = \"probe\"
[[server]]
name = \"b-2\"
address = \"[::]:4\"
init = \"plain\"
[[server]]
name = \"c\"
address = \"none\"
init = \"plain\"
[[route]]
dst = \"/s/a\"
servers = [\"b-2\", \"a\"]
[[route]]
dst = \"\\\"\\\\\\u000a\\u007f\\u001bä ~\"
servers = [\"a\"]
# end
";

/// Configurations, and what is shown of them: the last two are what is shown.
const PAGES: &[(&str, &str)] = &[
    (LEAST, DEFAULTS),
    (MOST, ALL),
    (DEFAULTS, DEFAULTS),
    (ALL, ALL),
];

fn shows(alloc: Global, text: &str, page: &str) -> Result<bool, Fail> {
    let Ok(config) = Config::read(alloc, text) else {
        return Ok(false);
    };
    Ok(config_page(alloc, &config)?.as_slice() == page.as_bytes())
}

#[test]
fn pages(rt: HostRuntime) -> Result<(), Fail> {
    for (place, (text, page)) in PAGES.iter().enumerate() {
        if !shows(rt.alloc(), text, page)? {
            return Err(Fail::from(place));
        }
    }
    Ok(())
}

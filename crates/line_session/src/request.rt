//! Whether a line is none of ours.
ghost use Rattle.std.specs.Prelude.{◌≡◌};
ghost use Rattle.line_session.specs.Requests.{is_request};

/// Whether a line ends as the first one of a request over HTTP/1.1, which a web page can have a browser send to any port.
pub fn is_request(line: &str) -> bool
    ensures { result ≡ is_request line.now }
{
    line.as_bytes().ends_with(b" HTTP/1.1".as_slice())
}

//! What a request asks for.
ghost use Rattle.std.specs.Prelude.{◌≡◌, ◌==◌, ◌<◌, length, IfSome};
ghost use Rattle.std.specs.List.{position};
ghost use Rattle.http_page.specs.Choices.{choice_of, path_of};

/// What a request asks for.
#[derive(Clone, Copy, Debug, PartialEq, Eq)]
pub enum Choice {
    /// The figures, at `/metrics`.
    Metrics,
    /// Whether clients are served, at `/health`.
    Health,
    /// Whether the router answers at all, at `/alive`.
    Alive,
    /// Another path.
    NotFound,
    /// Another method than GET and HEAD.
    NotAllowed,
}

/// What a request with this method and this target asks for. What stands behind a `?` is left off.
pub fn chosen(method: &[u8], target: &[u8]) -> Choice
    ensures { result ≡ choice_of method.now target.now }
{
    if method != b"GET".as_slice() && method != b"HEAD".as_slice() {
        return Choice::NotAllowed;
    }
    let path = path_of(target);
    if path == b"/metrics".as_slice() {
        Choice::Metrics
    } else if path == b"/health".as_slice() {
        Choice::Health
    } else if path == b"/alive".as_slice() {
        Choice::Alive
    } else {
        Choice::NotFound
    }
}

fn path_of(target: &[u8]) -> &[u8]
    ensures { result.now ≡ path_of target.now }
{
    match question_mark(target) {
        Some(end) => &target[..end],
        None => target,
    }
}

fn question_mark(target: &[u8]) -> Option<usize>
    ensures value { result ≡ position (λ b. b == 63) target.now }
    ensures within { IfSome result (λ end. end < length target.now) }
{
    target.iter().position(|b| *b == b'?')
}

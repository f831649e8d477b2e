//! What a request asks for.

ghost use Rattle.std.specs.Prelude.{MatchBool, codes, ◌≡◌, ◌≢◌};
ghost use Rattle.lb_metrics.specs.Asked.{IsAsked, IsRead, the_path};

/// What a request asks for.
#[derive(Clone, Copy, Debug, PartialEq, Eq)]
pub(crate) enum Asked {
    /// The page.
    Page,
    /// Something else.
    OtherPath,
    /// Something that cannot be done with the page.
    OtherMethod,
}

/// What a request with this method and this path asks for.
pub(crate) fn asked_by(method: &str, path: &str) -> Asked
    ensures { IsAsked method.now path.now result }
{
    if !is_the_path(path) {
        return Asked::OtherPath;
    }
    if is_read(method) {
        Asked::Page
    } else {
        Asked::OtherMethod
    }
}

fn is_the_path(path: &str) -> bool
    ensures { MatchBool result (path.now ≡ the_path) (path.now ≢ the_path) }
{
    path == "/metrics"
}

/// Whether a method reads: GET, or HEAD, which gets the head of the response alone.
fn is_read(method: &str) -> bool
    ensures { MatchBool result (IsRead method.now) ((method.now ≢ codes "GET") × (method.now ≢ codes "HEAD")) }
{
    method == "GET" || method == "HEAD"
}

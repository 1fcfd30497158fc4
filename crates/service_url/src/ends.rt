//! Texts without a byte at one of their ends.
ghost use Rattle.std.specs.Prelude.{◌≡◌, ◌<◌};
ghost use Rattle.std.specs.Io.BufRead.{strip_last};
ghost use Rattle.service_url.specs.Services.{strip_first};

/// The text without this character at its end, if it is there.
pub(crate) fn without_last(text: &str, last: char) -> &str
    requires { last < 128 }
    ensures { result.now ≡ strip_last last text.now }
{
    match text.strip_suffix(last) {
        Some(front) => front,
        None => text,
    }
}

/// The text without this character at its front, if it is there.
pub(crate) fn without_first(text: &str, first: char) -> &str
    requires { first < 128 }
    ensures { result.now ≡ strip_first first text.now }
{
    match text.strip_prefix(first) {
        Some(rest) => rest,
        None => text,
    }
}

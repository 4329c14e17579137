//! The input as lines, and the module text before the mark.
ghost use Rattle.std.specs.Prelude.{◌≡◌, ◌<◌, [], IfNone, IfSome, length};
ghost use Rattle.asn_jobs.specs.Lines.{lines_of, module_text, job_lines, IsFirstLine, is_mark_line};

use memchr::memchr;

/// The first line without its LF, and what follows it; `None` where there is nothing.
pub fn next_line(rest: &[u8]) -> Option<(&[u8], &[u8])>
    ensures none { IfNone result (rest.now ≡ []) }
    ensures some { IfSome result (λ p. IsFirstLine rest.now p.0.now p.1.now) }
{
    if rest.is_empty() {
        return None;
    }
    let Some(index) = memchr(b'\n', rest) else {
        return Some(rest.split_at(rest.len()));
    };
    let (line, ended) = rest.split_at(index);
    Some((line, ended.split_at(1).1))
}

/// The module text before the line `====`, and the lines after it; where there is no such line, all
/// of the input, and no lines.
pub fn cut_input(input: &[u8]) -> (&[u8], &[u8])
    ensures text { result.0.now ≡ module_text input.now }
    ensures lines { lines_of result.1.now ≡ job_lines input.now }
{
    let mut rest = input;
    while let Some((line, later)) = next_line(rest) {
        if is_mark(line) {
            return (input.split_at(input.len() - rest.len()).0, later);
        }
        rest = later;
    }
    (input, rest)
}

/// Whether the line is the mark.
fn is_mark(line: &[u8]) -> bool
    ensures { result ≡ is_mark_line line.now }
{
    line == b"====".as_slice()
}

//! The parts of a line, read off the front of what is left of it: words and figures.

ghost use Rattle.std.specs.Prelude.{◌≡◌};
ghost use Rattle.script.specs.Fields.{digit_of, ended, figure_of, named as named_so, parsed, spaced_of, three_of};

// The value of a digit. Bytes are matched as `char`s against literals, here and below: a rule of the project.
fn digit(byte: u8) -> Option<u8>
    ensures { result ≡ digit_of byte }
{
    match byte as char {
        '0'..='9' => Some(byte - b'0'),
        _ => None,
    }
}

// What the word stands for, if the rest begins with it, and what follows it.
pub(crate) fn named<'a, T: Drop>(rest: &'a [u8], word: &str, meaning: T) -> Option<(T, &'a [u8])>
    ensures { parsed result ≡ named_so word.now meaning rest.now }
{
    let rest = rest.strip_prefix(word.as_bytes())?;
    Some((meaning, rest))
}

// The figure that stands there, without leading zeros and below 2^64, and what follows it. `str::parse` would take a
// sign and leading zeros, which the layout does not.
pub(crate) fn figure(rest: &[u8]) -> Option<(u64, &[u8])>
    ensures { parsed result ≡ figure_of rest.now }
{
    let (first, mut left) = rest.split_first()?;
    let mut n = digit(*first)? as u64;
    if n == 0 {
        return Some((0, left));
    }
    while let Some((next, behind)) = left.split_first() {
        let Some(d) = digit(*next) else {
            break;
        };
        n = n.checked_mul(10)?.checked_add(d as u64)?;
        left = behind;
    }
    Some((n, left))
}

// The figure that stands there behind one space, and what follows it.
pub(crate) fn spaced(rest: &[u8]) -> Option<(u64, &[u8])>
    ensures { parsed result ≡ spaced_of rest.now }
{
    let (first, rest) = rest.split_first()?;
    match *first as char {
        ' ' => figure(rest),
        _ => None,
    }
}

// Whether a line feed alone is left.
pub(crate) fn at_end(rest: &[u8]) -> bool
    ensures { result ≡ ended rest.now }
{
    match rest {
        [last] => matches!(*last as char, '\n'),
        _ => false,
    }
}

// The three figures that stand there, each behind one space, at the end of the line.
pub(crate) fn three(rest: &[u8]) -> Option<(u64, u64, u64)>
    ensures { result ≡ three_of rest.now }
{
    let (a, rest) = spaced(rest)?;
    let (b, rest) = spaced(rest)?;
    let (c, rest) = spaced(rest)?;
    at_end(rest).then_some((a, b, c))
}

// What is written down for the calls of one kind: its lines, of which so many were used.
ghost use Rattle.std.specs.Prelude.{◌≡◌, ◌+◌, ◌||◌, length, min, get_or};

use wx_text::List;

/// The line of the next call, and the usual one where none is left.
pub(crate) fn line<'a, T>(lines: &'a List<T>, used: usize, usual: &'a T) -> &'a T
    ensures { result.now ≡ get_or lines.now used usual.now }
{
    if used < lines.len() {
        &lines.as_slice()[used]
    } else {
        usual
    }
}

/// How many lines are used once the next call was made.
pub(crate) fn passed<T>(lines: &List<T>, used: usize) -> usize
    ensures { result ≡ min (used + 1) (length lines.now) }
{
    if used < lines.len() {
        used + 1
    } else {
        lines.len()
    }
}

/// The line of the next call, which is made now, and the usual one where none is left.
pub(crate) fn next<T: Copy>(lines: &List<T>, used: &mut usize, usual: T) -> T
    ensures answer { result ≡ get_or lines.now used.old usual }
    ensures used { used.new ≡ min (used.old + 1) (length lines.now) }
{
    let answer = *line(lines, *used, &usual);
    *used = passed(lines, *used);
    answer
}

/// Whether one of the two is so.
pub(crate) fn either(one: bool, other: bool) -> bool
    ensures { result ≡ (one || other) }
{
    one || other
}

// Which texts a shell can give its place to.
ghost use Rattle.std.specs.Prelude.{◌≡◌, option_map};
ghost use Rattle.std.specs.List.{list_any};
ghost use Rattle.std.specs.Str.{bytes_eq};
ghost use Rattle.wx_command.specs.Execables.{parts_commands, has_more, is_space, first_word, is_setting, is_subshell, is_shell_word, is_program, execable};

use wx_text::Text;

/// The words by which the shell itself is meant.
const SHELL_WORDS: [&[u8]; 14] = [
    b"!",
    b"{",
    b"[[",
    b"case",
    b"coproc",
    b"eval",
    b"exec",
    b"for",
    b"function",
    b"if",
    b"select",
    b"time",
    b"until",
    b"while",
];

/// Whether the shell has more to do behind this byte.
fn parts_commands(byte: u8) -> bool
    ensures { result ≡ parts_commands byte }
{
    matches!(byte, b';' | b'&' | b'|' | b'\n')
}

/// Whether the shell has more to do than one command.
fn has_more(text: &[u8]) -> bool
    ensures { result ≡ has_more text.now }
{
    text.iter().any(|byte| parts_commands(*byte))
}

/// Whether this byte stands between words.
fn is_space(byte: u8) -> bool
    ensures { result ≡ is_space byte }
{
    matches!(byte, b' ' | b'\t' | b'\n' | b'\x0C' | b'\r')
}

/// The first word of a text, where there is one.
fn first_word(text: &[u8]) -> Option<&[u8]>
    ensures { option_map (λ word. word.now) result ≡ first_word text.now }
{
    text.split(|byte| is_space(*byte))
        .find(|piece| !piece.is_empty())
}

/// Whether this word sets a variable.
fn is_setting(word: &[u8]) -> bool
    ensures { result ≡ is_setting word.now }
{
    word.contains(&b'=')
}

/// Whether this word begins a shell of its own.
fn is_subshell(word: &[u8]) -> bool
    ensures { result ≡ is_subshell word.now }
{
    matches!(word, [b'(', ..])
}

/// Whether this word is among these.
fn is_among(word: &[u8], words: &[&[u8]]) -> bool
    ensures { result ≡ list_any (λ other. bytes_eq other.now word.now) words.now }
{
    words.iter().any(|other| *other == word)
}

/// Whether the shell itself is meant by this word.
fn is_shell_word(word: &[u8]) -> bool
    ensures { result ≡ is_shell_word word.now }
{
    is_among(word, &SHELL_WORDS)
}

/// Whether a command that begins with this word names a program by it.
fn is_program(word: &[u8]) -> bool
    ensures { result ≡ is_program word.now }
{
    !(is_setting(word) || is_subshell(word) || is_shell_word(word))
}

/// Whether a shell that runs this command can give its place to the one program that the command names. It can't where
/// the text has a `;`, a `&`, a `|` or a line feed, or has no word, or where its first word has a `=`, begins with a
/// `(`, or is a word of the shell's own. Words stand between spaces, tabs, line feeds, form feeds and carriage returns.
/// It takes no memory.
#[tactic(auto, unfolding(crate::specs::Execables::execable))]
pub fn is_execable(command: &Text) -> bool
    ensures { result ≡ execable command.now }
{
    let text = command.as_slice();
    match first_word(text) {
        Some(word) => !has_more(text) && is_program(word),
        None => false,
    }
}

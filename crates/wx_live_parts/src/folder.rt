// The folder that the program runs in.
ghost use Rattle.std.specs.Prelude.{◌≡◌, true, IfOk};
ghost use Rattle.wx_paths.specs.Paths.{is_absolute};

use crate::codes::code_of;
use std::alloc::AllocGlobal;
use std::env;
use std::io::ErrorKind;
use std::rt::Env;
use wx_scan::ScanError;
use wx_text::Text;
use wx_words::TextPath;

/// The folder that the program runs in. It is a fault where its path isn't UTF-8, and not found where it is gone.
pub fn current_folder<R: Env + AllocGlobal>(rt: &R) -> Result<TextPath, ScanError>
    ensures { IfOk result (λ path. is_absolute path ≡ true) }
{
    match env::current_dir(rt) {
        Ok(found) => absolute(Text::from_slice(rt.alloc(), found.as_str().as_bytes())?),
        Err(error) => Err(match error.kind() {
            ErrorKind::NotFound => ScanError::NotFound,
            ErrorKind::OutOfMemory => ScanError::Memory,
            _ => ScanError::Io(code_of(&error)),
        }),
    }
}

/// The path, which nothing stands at where it isn't absolute.
fn absolute(text: Text) -> Result<TextPath, ScanError>
    ensures { IfOk result (λ path. is_absolute path ≡ true) }
{
    if begins_with_slash(text.as_slice()) {
        Ok(TextPath::new(text))
    } else {
        Err(ScanError::NotFound)
    }
}

fn begins_with_slash(path: &[u8]) -> bool
    ensures { result ≡ is_absolute path.now }
{
    matches!(path, [b'/', ..])
}

//! Whether somebody looks at what the program says on the side.

use std::fs;
use std::rt::Files;

/// The name under which the system says what the standard error of a program is.
const STANDARD_ERROR: &str = "/proc/self/fd/2";

/// Whether the standard error is a terminal, by the name that the system gives it. Where it gives none, it is taken for no
/// terminal.
pub fn is_terminal<R: AllocGlobal + Files>(rt: &R) -> bool {
    match fs::read_link(rt, STANDARD_ERROR) {
        Ok(name) => is_name_of_terminal(name.as_str()),
        Err(_) => false,
    }
}

/// Whether this is the name of a terminal: of a window, of a session over a network, of a screen or of a line.
fn is_name_of_terminal(name: &str) -> bool {
    name.starts_with("/dev/pts/") || name.starts_with("/dev/tty") || name == "/dev/console"
}

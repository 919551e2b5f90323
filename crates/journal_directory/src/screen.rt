//! Where standard output goes: a terminal with its width and colours, or something else.
use exec_options::Color;
use std::env;
use std::path::Path;

// The columns of a terminal that does not say how many it has.
const COLUMNS: usize = 80;

/// Whether standard output is a terminal. Linux, proc(5).
pub fn is_terminal(rt: &HostRuntime) -> bool {
    match Path::new("/proc/self/fd/1").read_link(rt) {
        Ok(path) => match path.to_str() {
            Some(path) => path.starts_with("/dev/pts/") || path.starts_with("/dev/tty"),
            None => false,
        },
        Err(_) => false,
    }
}

// Whether the terminal has no control sequences.
fn is_dumb(rt: &HostRuntime) -> bool {
    matches!(env::var(rt, "TERM"), Ok(text) if text.as_str() == "dumb")
}

// Whether the environment refuses colours. no-color.org
fn refuses_colours(rt: &HostRuntime) -> bool {
    matches!(env::var(rt, "NO_COLOR"), Ok(text) if !text.is_empty())
}

/// Whether standard output is a terminal that can be cleared.
pub fn can_redraw(rt: &HostRuntime) -> bool {
    is_terminal(rt) && !is_dumb(rt)
}

/// Whether output is in colour.
pub fn has_colours(rt: &HostRuntime, color: Color) -> bool {
    match color {
        Color::Always => true,
        Color::Never => false,
        Color::Auto => can_redraw(rt) && !refuses_colours(rt),
    }
}

// The number of columns that the environment names.
fn named_columns(rt: &HostRuntime) -> Option<usize> {
    let text = env::var(rt, "COLUMNS").ok()?;
    match text.as_str().parse::<usize>() {
        Ok(columns) if columns > 0 => Some(columns),
        _ => None,
    }
}

/// The columns of the terminal at standard output; `None` if that is no terminal.
pub fn width_of(rt: &HostRuntime) -> Option<usize> {
    if !is_terminal(rt) {
        return None;
    }
    Some(named_columns(rt).unwrap_or(COLUMNS))
}

//! A shell that sends signals.
use crate::line::BoundedLine;
use crate::ready::{is_readable, is_writable};
use agent_system::Target;
use pauses::{Deadline, Pauses, outlives};
use std::alloc::{AllocError, Global};
use std::io::{self, ErrorKind, Read, Write};
use std::os::fd::AsRawFd;
use std::process::{Child, ChildStdin, ChildStdout, Command, Processes, Stdio, SystemProcess};
use std::rt::Clock;

// What it runs: each line that it reads is a signal and its target, and each is answered by a line: 0 exactly when the target got the
// signal. `kill` is built into the shell, so no process is made for it. POSIX, sh and kill.
const SCRIPT: &str = "trap '' HUP INT QUIT TERM
while read -r signal target; do
  if kill -s \"$signal\" -- $target; then echo 0; else echo 1; fi
done";

// How long an answer may take, in milliseconds.
const LIMIT: u32 = 1_000;

// How often an answer is waited for again after a signal that ended the wait.
const WAITS: u32 = 100;

/// A shell that sends signals, so that no process is made for one. It ends when its standard input does.
#[derive(Drop)]
pub struct Killer {
    child: Child<SystemProcess>,
    lines: ChildStdin,
    answers: ChildStdout,
}

/// The line that has the shell send a signal to a target. One that POSIX takes for a multitude is left out.
pub fn line_of(signal: &str, target: Target) -> BoundedLine {
    let mut line = BoundedLine::new();
    // what does not fit is cut; that is no error
    let _ = write!(line, "{signal}");
    if target.is_one() {
        let _ = write!(line, " {target}");
    }
    line.end();
    line
}

// The shell, in a session of its own where this is by setsid(1): then neither a terminal nor the `kill 0` of an agent reaches it.
fn command(alloc: Global, in_session: bool) -> Result<Command, AllocError> {
    let mut command = if in_session {
        let mut command = Command::new(alloc, "setsid")?;
        command.arg("/bin/sh")?;
        command
    } else {
        Command::new(alloc, "/bin/sh")?
    };
    command.env_clear();
    command.current_dir("/")?;
    command.stdin(Stdio::piped());
    command.stdout(Stdio::piped());
    command.stderr(Stdio::null());
    command.arg("-c")?;
    command.arg(SCRIPT)?;
    Ok(command)
}

// Without setsid the shell is spawned by itself, whatever the reason is: it is needed more than its session.
fn spawned(rt: &HostRuntime) -> io::Result<Child<SystemProcess>> {
    match command(rt.alloc(), true)?.spawn(rt) {
        Err(_) => command(rt.alloc(), false)?.spawn(rt),
        spawned => spawned,
    }
}

impl Killer {
    /// Spawns the shell.
    pub fn start(rt: &HostRuntime) -> io::Result<Killer> {
        // TRUSTED: this shell sends the signals that its lines name, and no others.
        let mut child = spawned(rt)?;
        match (child.stdin.take(), child.stdout.take()) {
            (Some(lines), Some(answers)) => Ok(Killer {
                child,
                lines,
                answers,
            }),
            _ => Err(io::Error::from(ErrorKind::BrokenPipe)),
        }
    }

    // Writes a line to it. A line has at most 4,096 bytes, so it fits into the pipe, which is empty before.
    fn write(&mut self, line: &BoundedLine) -> io::Result<()> {
        if !is_writable(self.lines.as_raw_fd()) {
            return Err(io::Error::from(ErrorKind::TimedOut));
        }
        let bytes = line.as_bytes();
        if self.lines.write(bytes)? < bytes.len() {
            return Err(io::Error::from(ErrorKind::WriteZero));
        }
        Ok(())
    }

    // Its answer to the last line: whether the target got the signal.
    fn answer(&mut self, clock: &impl Clock) -> io::Result<bool> {
        let deadline = Deadline::after(clock, LIMIT);
        let mut answer = [0u8; 2];
        for _ in 0..WAITS {
            let left = deadline.left(clock);
            if is_readable(self.answers.as_raw_fd(), left) {
                let length = self.answers.read(&mut answer)?;
                return if length == 2 {
                    Ok(answer[0] == b'0')
                } else {
                    Err(io::Error::from(ErrorKind::UnexpectedEof))
                };
            }
            if left == 0 {
                break;
            }
        }
        Err(io::Error::from(ErrorKind::TimedOut))
    }

    /// Has it send what a line says, and returns whether the target got the signal. It fails where the shell is gone or
    /// does not answer in a second.
    pub fn ask(&mut self, clock: &impl Clock, line: &BoundedLine) -> io::Result<bool> {
        self.write(line)?;
        self.answer(clock)
    }

    /// Ends the shell.
    pub fn end(mut self, clock: &impl Clock) {
        // TRUSTED: SIGKILL is requested for the shell alone.
        let _ = self.child.kill();
        outlives(clock, &mut self.child, Pauses::after_kill());
    }
}

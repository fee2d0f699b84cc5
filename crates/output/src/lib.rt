// Standard output as the programs write to it. What cannot be written there is lost, and the program goes on (docs/DECISIONS.md, 625).
#![tactic(auto)]

ghost use Rattle.std.specs.Prelude.{IsOk};

use std::fmt::{self, Display, Formatter};

// Standard output, by its number.
const STDOUT_FILENO: i32 = 1;

#[derive(Clone, Copy)]
pub struct Output {}

impl fmt::Write for Output {
    fn write_str(&mut self, s: &str) -> fmt::Result {
        io::write_all(STDOUT_FILENO, s.as_bytes());
        Ok(())
    }
}

impl Print for Output {
    fn print<D: Display + Drop>(&self, value: D) -> std::io::Result<()>
        ensures { IsOk result }
    {
        let _ = Formatter::new(*self).write(&value);
        Ok(())
    }

    fn println<D: Display + Drop>(&self, value: D) -> std::io::Result<()>
        ensures { IsOk result }
    {
        self.print(value)?;
        self.write_all(b"\n")
    }

    fn write_all(&self, bytes: &[u8]) -> std::io::Result<()>
        ensures { IsOk result }
    {
        io::write_all(STDOUT_FILENO, bytes);
        Ok(())
    }
}
